//! What holds of payloads, and of what is written.

ghost use Rattle.vrx_h264.specs.OnePayload.{CarriesSpelled, GivesPart, RefusesOthers, DividesAll, DividesOnce, TellsWhatIsLeft};
ghost use Rattle.vrx_h264.specs.OneAccessUnit.{JoinsUnits, TellsNoStart, TellsNoEnd, TellsMixed, HasOutcome, JoinsBytes};
ghost use Rattle.vrx_h264.specs.Writing.{FragmentsJoin, AggregateJoins};

/// The laws of payloads (RFC 6184 5.6 to 5.8). Octets carry units exactly if nothing is wrong with them, and the
/// same units in one way; the part is that of these units; and what carries none is refused. The octets after an
/// aggregate's first divide in one way into units and what begins with none; if that is left, the fault is what is
/// wrong with its front, told after the units. The function does nothing.
pub fn one_payload()
    ensures carried { CarriesSpelled }
    ensures part { GivesPart }
    ensures refused { RefusesOthers }
    ensures divides { DividesAll }
    ensures one_division { DividesOnce }
    ensures wrong_unit { TellsWhatIsLeft }
{}

/// The laws of access units (RFC 6184 5.6 to 5.8). Pieces join exactly if they carry units, one after another,
/// and then to these; and each fault comes exactly if its reason stands after whole units. One of these holds
/// always. Parts whose pieces carry units join to these, each after its start code. The function does nothing.
pub fn one_access_unit()
    ensures joined { JoinsUnits }
    ensures no_start { TellsNoStart }
    ensures no_end { TellsNoEnd }
    ensures mixed { TellsMixed }
    ensures one_of_these { HasOutcome }
    ensures bytes { JoinsBytes }
{}

/// The fragments that [`crate::write_fu`] gives of a unit, at least two of at least one octet each and one after
/// another to the unit's end, join to the unit after its start code (RFC 6184 5.8). The function does nothing.
pub fn fragments_join()
    ensures joins { FragmentsJoin }
{}

/// The payload that [`crate::write_stap`] gives of units joins to the units, each after its start code (RFC 6184
/// 5.7.1). The function does nothing.
pub fn aggregate_joins()
    ensures joins { AggregateJoins }
{}
