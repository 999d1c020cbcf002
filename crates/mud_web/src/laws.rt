//! Laws of the definitions. Each contract is a law, and its function does nothing.

ghost use Rattle.std.specs.Prelude.{◌≡◌};
ghost use Rattle.mud_web.specs.declared.asking.TheConstants.{MOST_HEAD, MOST_FIELDS};
ghost use Rattle.mud_web.specs.declared.channel.TheConstants.{MOST_MESSAGE};
ghost use Rattle.mud_web.specs.declared.messages.TheConstants.{MOST_SENT};
ghost use Rattle.mud_web.specs.declared.first_line.TheConstants.{SPACE};
ghost use Rattle.mud_web.specs.Laws.{Messages, TextsArrive, MessagesType, NothingCommands};
ghost use Rattle.mud_web.specs.Laws.{OnlyLinesAreTyped};
ghost use Rattle.mud_web.specs.Laws.{UndecidedEndsNoLine};

/// The messages of a text concatenate to the text. Each is non-empty, has at most [`MOST_SENT`](crate::MOST_SENT)
/// bytes, and is cut after the last line end that fits.
pub fn messages()
    ensures { Messages }
{}

/// The other side reads a sent text as exactly those messages, one text message each.
pub fn texts_arrive()
    ensures { TextsArrive }
{}

/// A text message that the other side sends as one frame, under any mask, types that text and LF.
pub fn messages_type()
    ensures { MessagesType }
{}

/// No input of a web socket types the byte 255, which begins every Telnet command. Text messages are UTF-8 (RFC 6455,
/// section 8.1), and UTF-8 never contains that byte.
pub fn nothing_commands()
    ensures { NothingCommands }
{}

/// So a web socket feeds only lines to its session, some of them too long. A session on the web never receives AYT, and
/// never sends a Telnet answer.
pub fn only_lines_are_typed()
    ensures { OnlyLinesAreTyped }
{}

/// While it is undecided whether a connection begins with a request, no non-empty line is complete. So a caller that
/// executes lines as they come executes nothing of a request.
pub fn undecided_ends_no_line()
    ensures { UndecidedEndsNoLine }
{}

/// Promises the limits: the length and the number of fields of a head, and the lengths of received and of sent
/// messages.
pub fn limits()
    ensures heads { (MOST_HEAD ≡ 8192) × (MOST_FIELDS ≡ 64) }
    ensures messages { (MOST_MESSAGE ≡ 4096) × (MOST_SENT ≡ 65_536) }
{}

/// Promises the value of the space between the words of a request.
pub fn codes()
    ensures { SPACE ≡ 32 }
{}
