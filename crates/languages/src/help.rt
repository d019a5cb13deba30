// The answer to `help`: "`help` and the first words of the program's lines".
ghost use Rattle.text.specs.Text.{Puts};
ghost use Rattle.languages.specs.HelpText.{request_names, own_names, help_text};

use crate::Language;
use text::put_text;

// The first words of the lines that stand_in answers.
const BOARD_WORDS: &[u8] = b"help make memory bytes packet event breakpoint peek state";

fn put_requests(text: &mut [u8], at: usize) -> usize
    ensures { Puts text.old at request_names text.new result }
{
    let to = put_text(
        text,
        at,
        b" rdreg wdreg read.b read.w read.l write.b write.w write.l dump.b dump.w dump.l fill.b fill.w fill.l",
    );
    put_text(text, to, b" go nop sync_pc rcreg wcreg rdmreg wdmreg")
}

fn put_own(language: Language, text: &mut [u8]) -> usize
    ensures { Puts text.old 0 (own_names language) text.new result }
{
    match language {
        Language::StandIn => put_text(text, 0, BOARD_WORDS),
        Language::Talk => {
            let at = put_text(
                text,
                0,
                b"help make memory bytes event breakpoint peek state",
            );
            put_requests(text, at)
        }
        Language::Both => {
            let at = put_text(text, 0, BOARD_WORDS);
            put_requests(text, at)
        }
        Language::Pod => put_text(text, 0, b"help build read"),
    }
}

pub fn put_help(language: Language, text: &mut [u8]) -> usize
    ensures { Puts text.old 0 (help_text language) text.new result }
{
    let at = put_own(language, text);
    put_text(text, at, b" help quit")
}
