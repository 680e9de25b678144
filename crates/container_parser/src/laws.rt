// What the definitions imply.
ghost use Rattle.std.specs.Prelude.{◌≡◌, ◌≢◌, ◌↔◌, ℕ, List, Some, pos, take};
ghost use Rattle.std.specs.List.{before_first};
ghost use Rattle.container_parser.specs.Computed.{line_read, pod_in};
ghost use Rattle.container_parser.specs.Lines.{IsLine, IsLineFault};
ghost use Rattle.container_parser.specs.Pods.{IsPodPath};
ghost use Rattle.container_parser.specs.Times.{IsNoTime};
ghost use Rattle.container_parser.specs.Words.{is_space};
ghost use Rattle.container_parser.specs.declared.fault.ContainerFault.{ContainerFault as line_fault};
ghost use Rattle.container_parser.specs.declared.fault.ContainerFault.TheVariants.{Memory};
ghost use Rattle.container_parser.specs.declared.format.Format.{Format as line_format};
ghost use Rattle.container_parser.specs.declared.line.ContainerLine.{ContainerLine as line_record};
ghost use Rattle.container_parser.specs.declared.pod.Pod.{Pod as pod_record};
ghost use Rattle.time_layout.specs.Beginnings.{IsBeginning};
ghost use Rattle.time_layout.specs.Iso.{rfc3339_parts};
ghost use Rattle.time_layout.specs.declared.fault.TimeFault.TheVariants.{Mismatch};

/// A line says one thing at most in a format.
pub fn line_says_one_thing()
    ensures { (format : line_format) (text : List ℕ) (line other : line_record) → IsLine format text line → IsLine format text other → line ≡ other }
{}

/// A line that says something has no fault, and any other has one at most, but for want of memory.
pub fn line_has_one_fault()
    ensures none { (format : line_format) (text : List ℕ) (line : line_record) (fault : line_fault) → IsLine format text line → IsLineFault format text fault → fault ≡ Memory }
    ensures one { (format : line_format) (text : List ℕ) (fault other : line_fault) → IsLineFault format text fault → IsLineFault format text other
        → fault ≢ Memory → other ≢ Memory → fault ≡ other }
{}

/// A path has the names of one pod at most.
pub fn path_is_of_one_pod()
    ensures { (path : List ℕ) (pod other : pod_record) → IsPodPath path pod → IsPodPath path other → pod ≡ other }
{}

/// What is computed of a line is what the grammar of its format gives it, and none where that gives none.
pub fn lines_are_read()
    ensures { (format : line_format) (text : List ℕ) (line : line_record) → (line_read format text ≡ Some line) ↔ IsLine format text line }
{}

/// What is computed of a path is the pod whose names it has, and none where it has none.
pub fn pods_are_told()
    ensures { (path : List ℕ) (pod : pod_record) → (pod_in path ≡ Some pod) ↔ IsPodPath path pod }
{}

/// Where the time of a line of CRI-O or containerd can't be read, the bytes of the line before the place begin a time of
/// this form. That one of them names a day of the calendar isn't said: no time begins with `2023-02-3`.
pub fn bytes_before_a_wrong_time_begin_its_form()
    ensures { (line : List ℕ) (at : ℕ) → IsNoTime (before_first is_space line) (Mismatch at) → IsBeginning (rfc3339_parts 9) (pos 0) (take at line) }
{}
