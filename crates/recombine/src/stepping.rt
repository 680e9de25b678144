// The four steps by which an entry comes to its group.
ghost use Rattle.std.specs.Prelude.{◌≡◌, ◌+◌, ◌<◌, ◌++◌, length, nat_lt, OnOk, IfOk};
ghost use Rattle.entry_model.specs.Lawful.{NestsWithin};
ghost use Rattle.entry_model.specs.LogRecord.{log_record};
ghost use Rattle.state_codec.specs.Limits.{levels};
ghost use Rattle.recombine.specs.Limits.{byte_limit};
ghost use Rattle.recombine.specs.Recombined.{entries_of};
ghost use Rattle.recombine.specs.Sources.{AreOfOthers};
ghost use Rattle.recombine.specs.Steps.{after_mark, ended_by_mark, after_room, ended_by_room, has_no_room, joined, after_end, ended_by_end, after, ended};
ghost use Rattle.recombine.specs.Stepped.{seen};
ghost use Rattle.recombine.specs.Table.{item_seen, IsPlace, IsAt, HasRoom, Changes, with_newest};

use crate::group::{Coming, OpenGroup};
use crate::{BYTE_LIMIT, GROUP_LIMIT, Groups, Recombine};
use entry_model::Entry;
use std::alloc::{AllocError, Global};

impl Recombine {
    /// All four steps.
    pub(crate) fn join(
        &self,
        alloc: Global,
        groups: &mut Groups,
        x: Coming,
        out: &mut Vec<Entry>,
    ) -> Result<(), AllocError>
        requires { NestsWithin levels (log_record x.entry) }
        ensures groups { OnOk result (groups.new ≡ after self.now groups.old (item_seen x)) }
        ensures sent { OnOk result (seen out.new.items ≡ seen out.old.items ++ entries_of self.now (ended self.now groups.old (item_seen x))) }
    {
        let place = groups.place_of(&x.source);
        let place = self.begin(alloc, groups, place, &x, out)?;
        let place = self.make_room(alloc, groups, place, &x, out)?;
        match place {
            None => self.start(alloc, groups, x, out),
            Some(place) => self.join_at(alloc, groups, place, x, out),
        }
    }

    /// The first step, by the place of the entry's group; answers that place behind it.
    fn begin(
        &self,
        alloc: Global,
        groups: &mut Groups,
        place: Option<usize>,
        x: &Coming,
        out: &mut Vec<Entry>,
    ) -> Result<Option<usize>, AllocError>
        requires { IsPlace x.now.source groups.old place }
        ensures groups { OnOk result (groups.new ≡ after_mark self.now groups.old (item_seen x.now)) }
        ensures sent { OnOk result (seen out.new.items ≡ seen out.old.items ++ entries_of self.now (ended_by_mark self.now groups.old (item_seen x.now))) }
        ensures place { IfOk result (λ then. IsPlace x.now.source groups.new then) }
    {
        if !self.is_first(x) {
            return Ok(place);
        }
        let Some(place) = place else {
            return Ok(None);
        };
        let group = groups.remove(place);
        self.send(alloc, group, out)?;
        Ok(None)
    }

    /// The second step, likewise.
    fn make_room(
        &self,
        alloc: Global,
        groups: &mut Groups,
        place: Option<usize>,
        x: &Coming,
        out: &mut Vec<Entry>,
    ) -> Result<Option<usize>, AllocError>
        requires { IsPlace x.now.source groups.old place }
        ensures groups { OnOk result (groups.new ≡ after_room self.now groups.old (item_seen x.now)) }
        ensures sent { OnOk result (seen out.new.items ≡ seen out.old.items ++ entries_of self.now (ended_by_room self.now groups.old (item_seen x.now))) }
        ensures place { IfOk result (λ then. IsPlace x.now.source groups.new then) }
        ensures room { OnOk result (HasRoom self.now groups.new (item_seen x.now)) }
    {
        if !self.has_no_room(groups, place, x) {
            return Ok(place);
        }
        self.close(alloc, groups, out)?;
        Ok(None)
    }

    fn has_no_room(&self, groups: &Groups, place: Option<usize>, x: &Coming) -> bool
        requires { IsPlace x.now.source groups.now place }
        ensures { result ≡ has_no_room self.now groups.now (item_seen x.now) }
    {
        let Some(_place) = place else {
            if groups.len() >= GROUP_LIMIT {
                return true;
            }
            return is_too_long(groups.bytes(), 0, x.text.len());
        };
        is_too_long(groups.bytes(), self.separator().len(), x.text.len())
    }

    /// The third and fourth step, where the entry's source has no group.
    fn start(
        &self,
        alloc: Global,
        groups: &mut Groups,
        x: Coming,
        out: &mut Vec<Entry>,
    ) -> Result<(), AllocError>
        requires new { AreOfOthers x.source groups.old }
        requires room { HasRoom self.now groups.old (item_seen x) }
        requires shallow { NestsWithin levels (log_record x.entry) }
        ensures groups { OnOk result (groups.new ≡ after_end self.now (joined self.now groups.old (item_seen x)) (item_seen x)) }
        ensures sent { OnOk result (seen out.new.items ≡ seen out.old.items
            ++ entries_of self.now (ended_by_end self.now (joined self.now groups.old (item_seen x)) (item_seen x))) }
    {
        if self.is_done(&x, 1) {
            return self.send_with(alloc, x.text, x.entry, out);
        }
        let group = OpenGroup {
            source: x.source,
            entries: 1,
            text: String::from_str(alloc, x.text.as_str())?,
            base: x.entry,
        };
        groups.push(Box::new(alloc, group)?)
    }

    /// The third and fourth step, where its group is at this place.
    fn join_at(
        &self,
        alloc: Global,
        groups: &mut Groups,
        place: usize,
        x: Coming,
        out: &mut Vec<Entry>,
    ) -> Result<(), AllocError>
        requires at { IsAt x.source groups.old place }
        requires room { HasRoom self.now groups.old (item_seen x) }
        requires shallow { NestsWithin levels (log_record x.entry) }
        ensures groups { OnOk result (groups.new ≡ after_end self.now (joined self.now groups.old (item_seen x)) (item_seen x)) }
        ensures sent { OnOk result (seen out.new.items ≡ seen out.old.items
            ++ entries_of self.now (ended_by_end self.now (joined self.now groups.old (item_seen x)) (item_seen x))) }
    {
        let entries = groups.entries_at(place) + 1;
        groups.append(place, self.separator())?;
        groups.append(place, x.text.as_str())?;
        let done = self.is_done(&x, entries);
        self.rebase(groups, place, x.entry);
        if done {
            let group = groups.remove(place);
            return self.send(alloc, group, out);
        }
        groups.set_entries(place, entries);
        Ok(())
    }

    /// Makes the entry the base of the group at a place, where the newest one is.
    fn rebase(&self, groups: &mut Groups, place: usize, entry: Entry)
        requires in_range { place < length groups.old }
        requires shallow { NestsWithin levels (log_record entry) }
        ensures { Changes groups.old place (with_newest self.now.newest entry) groups.new }
    {
        if self.is_newest() {
            let _older = groups.set_base(place, entry);
        }
    }
}

fn is_too_long(bytes: usize, more: usize, most: usize) -> bool
    ensures { result ≡ nat_lt byte_limit (bytes + more + most) }
{
    bytes.saturating_add(more).saturating_add(most) > BYTE_LIMIT
}
