// What the definitions imply.
ghost use Rattle.std.specs.Prelude.{◌≡◌, ◌≢◌, ℕ, ℤ, List, Option as option};
ghost use Rattle.syslog_parser.specs.Faults.{IsFault3164, IsFault5424};
ghost use Rattle.syslog_parser.specs.Rfc3164.{Message as message_3164, IsMessage as IsMessage3164};
ghost use Rattle.syslog_parser.specs.Rfc5424.{Limited, Valued, AreFields, Message as message_5424, IsMessage as IsMessage5424};
ghost use Rattle.syslog_parser.specs.Stamps.{IsDate, IsTime};
ghost use Rattle.syslog_parser.specs.Priorities.{IsPriority};
ghost use Rattle.syslog_parser.specs.declared.fault.SyslogFault.{SyslogFault as fault_of_syslog};
ghost use Rattle.syslog_parser.specs.declared.fault.SyslogFault.TheVariants.{Memory};

/// A priority is read from its start in one way, and so are a time of each format and the fields of a header.
pub fn parts_are_read_in_one_way()
    ensures priority { (text rest more : List ℕ) (p q : ℕ) → IsPriority text p rest → IsPriority text q more → (p ≡ q) × (rest ≡ more) }
    ensures time { (text rest more : List ℕ) (t u : option ℕ) → IsTime text t rest → IsTime text u more → (t ≡ u) × (rest ≡ more) }
    ensures date { (year : ℕ) (location : ℤ) (text rest more : List ℕ) (t u : ℕ) → IsDate year location text t rest → IsDate year location text u more
        → (t ≡ u) × (rest ≡ more) }
    ensures fields { (fields : List Limited) (text : List ℕ) (values others : List Valued) (rest more : List ℕ) → AreFields fields text values rest
        → AreFields fields text others more → (values ≡ others) × (rest ≡ more) }
{}

/// A text is one message of RFC 5424 at most.
pub fn text_is_one_message_of_5424()
    ensures { (text : List ℕ) (message other : message_5424) → IsMessage5424 text message → IsMessage5424 text other → message ≡ other }
{}

/// A text has one fault at most, but for want of memory, and none where it is a message of RFC 5424.
pub fn text_has_one_fault_of_5424()
    ensures one { (text : List ℕ) (fault other : fault_of_syslog) → IsFault5424 text fault → IsFault5424 text other → fault ≢ Memory → other ≢ Memory → fault ≡ other }
    ensures none { (text : List ℕ) (message : message_5424) (fault : fault_of_syslog) → IsMessage5424 text message → IsFault5424 text fault → fault ≢ Memory → ⊥ }
{}

/// In a year and at a distance from UTC a text is one message of RFC 3164 at most.
pub fn text_is_one_message_of_3164()
    ensures { (year : ℕ) (location : ℤ) (text : List ℕ) (message other : message_3164) → IsMessage3164 year location text message
        → IsMessage3164 year location text other → message ≡ other }
{}

/// A text has one fault at most, but for want of memory, and none where it is a message of RFC 3164.
pub fn text_has_one_fault_of_3164()
    ensures one { (year : ℕ) (location : ℤ) (text : List ℕ) (fault other : fault_of_syslog) → IsFault3164 year location text fault → IsFault3164 year location text other
        → fault ≢ Memory → other ≢ Memory → fault ≡ other }
    ensures none { (year : ℕ) (location : ℤ) (text : List ℕ) (message : message_3164) (fault : fault_of_syslog) → IsMessage3164 year location text message
        → IsFault3164 year location text fault → fault ≢ Memory → ⊥ }
{}
