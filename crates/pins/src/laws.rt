//! What the machines promise within a core, as the contract of a function that does nothing.

ghost use Rattle.pins.specs.Within.{PinsWithin, PinsAlone, UnpinsWithin, ScansWithin};

/// From every start, at every seat, and whatever other seats do between its steps: each ask of a machine is a step that the core
/// allows, each answer that comes there is admitted, and it ends. A pin is then valid and names the generation of the head found
/// last; after giving it up the pin word is 0; and a scan has found each pin word free of the generation, or the first that is not.
/// What else the seat's state has is as before, and so is what contracts alone see of it.
pub fn law_within()
    ensures pins { PinsWithin }
    ensures unpins { UnpinsWithin }
    ensures scans { ScansWithin }
{}

/// Where no other seat makes a step, a pin is taken so over a memory of one caller whose words are those of a core that a run reaches. The
/// memory then has the words of such a core again, with the same history.
pub fn law_alone()
    ensures { PinsAlone }
{}
