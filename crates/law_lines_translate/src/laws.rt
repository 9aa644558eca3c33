//! Laws of translation lines.
ghost use Rattle.law_lines_translate.specs.Lines.{LinesAreTrue};

/// A law of every run of a good guest's actors from its opening, in whatever order their steps come: the devices that a
/// translation line's word has are those that are in the line; each line's message, and the message with which a device
/// is in one, becomes its LPI by the guest's maps and GITS_CTLR; a line that the actor with the ITS knows to be shut has no
/// message, and nobody is in it; so it is of all lines where that actor has changed an LPI since it took the ITS; and an
/// actor without the ITS knows of no line that it is shut.
pub fn lines_are_true()
    ensures { LinesAreTrue }
{}
