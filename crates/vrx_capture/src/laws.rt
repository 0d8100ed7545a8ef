//! What holds of the grammar of lines itself.

ghost use Rattle.std.specs.Prelude.{◌≡◌, ℕ, ◌<◌, ◌≤◌, ◌^◌, ◌++◌, ◌↔◌, List, Some, codes, length};
ghost use Rattle.std.specs.Fmt.{decimal};
ghost use Rattle.vrx_core.specs.declared.event.Event.TheVariants.{Datagram, Tick, Pull};
ghost use Rattle.vrx_capture.specs.Words.{number_in};
ghost use Rattle.vrx_core.specs.declared.event.Event.{Event};
ghost use Rattle.vrx_capture.specs.Line.{latest_moment, longest_line, most_lines, event_in, line_at};
ghost use Rattle.vrx_capture.specs.IsLine.{IsDatagramLine, IsBlankLine, IsFirstReason};
ghost use Rattle.vrx_capture.specs.declared.line.LineKind.TheVariants.{Blank, Happens, Wrong};
ghost use Rattle.vrx_capture.specs.declared.line.LineReason.{LineReason};
ghost use Rattle.vrx_capture.specs.Joins.{OneLine, LastLine, LinesJoin, ReadingsJoin};
ghost use Rattle.vrx_capture.specs.Reading.{sound, reading};
ghost use Rattle.vrx_capture.specs.Readings.{AreGood, HasBad};

/// What one line of a text is: octets without a line feed, ended by a line feed or by the end of the text. The
/// function does nothing.
pub fn one_line()
    ensures ended { OneLine }
    ensures last { LastLine }
{}

/// How the answers of several calls join: the lines of whole lines and of what stands after them, and what these
/// lines give. The function does nothing.
pub fn lines_join()
    ensures lines { LinesJoin }
    ensures readings { ReadingsJoin }
{}

/// What the grammar of lines means. Digits are a number exactly if it is written so in decimal, as a transcript
/// writes numbers too; and a line reports a datagram, a tick or a pull exactly if it is spelled so. The function
/// does nothing.
pub fn lines_mean()
    ensures number { (most n : ℕ) (digits : List ℕ) → most < 2 ^ 64 →
        ((number_in most digits ≡ Some n) ↔ ((digits ≡ decimal n) × (n ≤ most))) }
    ensures datagram { (line : List ℕ) (m : ℕ) (octets : List ℕ) →
        ((event_in line ≡ Some (Datagram m octets)) ↔ IsDatagramLine line m octets) }
    ensures tick { (line : List ℕ) (m : ℕ) →
        ((event_in line ≡ Some (Tick m)) ↔ ((line ≡ codes "t " ++ decimal m) × (m ≤ latest_moment))) }
    ensures pull { (line : List ℕ) (m : ℕ) →
        ((event_in line ≡ Some (Pull m)) ↔ ((line ≡ codes "p " ++ decimal m) × (m ≤ latest_moment))) }
{}

/// What a line says, in words of octets: that it is bad for the first of the reasons that apply, if one does;
/// nothing, if it is empty or a comment within the limits; and an event, if it reports it within the limits. The
/// function does nothing.
pub fn reasons_mean()
    ensures wrong { (max k events : ℕ) (line : List ℕ) (reason : LineReason) →
        ((line_at max k events line ≡ Wrong reason) ↔ IsFirstReason max k events line reason) }
    ensures blank { (max k events : ℕ) (line : List ℕ) → ((line_at max k events line ≡ Blank) ↔
        ((k ≤ most_lines) × (length line ≤ longest_line) × IsBlankLine line)) }
    ensures happens { (max k events : ℕ) (line : List ℕ) (event : Event) →
        ((line_at max k events line ≡ Happens event) ↔ ((k ≤ most_lines) × (length line ≤ longest_line) ×
        (events < max) × (event_in line ≡ Some event))) }
{}

/// What lines give, by what each of them is. They give these events and no bad line exactly if each says nothing or
/// reports the next event. Line `j` is bad for a reason exactly if it is the first bad one among them, this is its first
/// reason, and the lines before it give the events. The function does nothing.
pub fn readings_are()
    ensures good { (max k events : ℕ) (lines : List (List ℕ)) (given : List (ℕ × Event)) →
        ((reading max k events lines ≡ sound given) ↔ AreGood max k events lines given) }
    ensures bad { (max k events : ℕ) (lines : List (List ℕ)) (given : List (ℕ × Event))
        (j : ℕ) (reason : LineReason) →
        ((reading max k events lines ≡ record { events = given; bad = Some (j, reason) }) ↔
        HasBad max k events lines given j reason) }
{}
