// What the definitions imply, for those who make several calls.
ghost use Rattle.std.specs.Prelude.{◌≡◌, ◌≢◌, ◌≤◌, ℕ, List, length, take, None, Some, IsTrue};
ghost use Rattle.outside.specs.Closing.{Closes};
ghost use Rattle.outside.specs.Image.{KeepsFront, Torn};
ghost use Rattle.outside.specs.Lawful.{IsLawful};
ghost use Rattle.outside.specs.Moment.{Moves};
ghost use Rattle.outside.specs.Opening.{OpensFile};
ghost use Rattle.outside.specs.Path.{is_below, is_path};
ghost use Rattle.outside.specs.Reading.{file_of};
ghost use Rattle.outside.specs.Seen.{left_unlisted, looked, missed};
ghost use Rattle.outside.specs.World.{History, World, file_at, names};

/// Steps of others leave what the agent's own calls left in a history.
pub fn steps_leave_own_events()
    ensures looks { (old new : History) → Moves old new → looked new ≡ looked old }
    ensures misses { (old new : History) → Moves old new → missed new ≡ missed old }
    ensures unlisted { (old new : History) → Moves old new → left_unlisted new ≡ left_unlisted old }
{}

/// In a lawful history names are paths, a file's name is no folder on the way to another, and a file has one name.
pub fn names_are_apart()
    ensures paths { (history : History) (path : List ℕ) (file : ℕ) → IsLawful history
        → file_at (names history) path ≡ Some file → IsTrue (is_path path) }
    ensures folders { (history : History) (folder path : List ℕ) (file : ℕ) → IsLawful history
        → file_at (names history) path ≡ Some file → IsTrue (is_below folder path)
        → file_at (names history) folder ≡ None }
    ensures one { (history : History) (path other : List ℕ) (file : ℕ) → IsLawful history
        → file_at (names history) path ≡ Some file → file_at (names history) other ≡ Some file → path ≡ other }
{}

/// A close gives up the handle that it names and no other, and so undoes an open.
pub fn close_gives_up_one_handle()
    ensures gone { (handle : ℕ) (old new : World) → Closes handle old new → file_of new.handles handle ≡ None }
    ensures others { (handle other : ℕ) (old new : World) → Closes handle old new → other ≢ handle
        → file_of new.handles other ≡ file_of old.handles other }
    ensures undoes { (path : List ℕ) (handle size : ℕ) (old opened new : World)
        → OpensFile path handle size old opened → Closes handle opened new → new.handles ≡ old.handles }
{}

/// Writes from some place on leave what stands before it, however many there are and whatever is left of them.
pub fn writes_keep_what_is_before()
    ensures none { (kept : ℕ) (content : List ℕ) → KeepsFront kept content content }
    ensures torn { (kept offset size : ℕ) (old new : List ℕ) → kept ≤ offset → Torn offset size old new
        → KeepsFront kept old new }
    ensures both { (kept : ℕ) (old mid new : List ℕ) → KeepsFront kept old mid → KeepsFront kept mid new
        → KeepsFront kept old new }
    ensures prefix { (kept : ℕ) (old new : List ℕ) → kept ≤ length old → KeepsFront kept old new
        → take kept new ≡ take kept old }
{}
