// The lines of a whole program: the first, those of its functions, main's.
ghost use Rattle.std.specs.Prelude.{◌≡◌};
ghost use Rattle.answers.specs.Check.{ok};
ghost use Rattle.rules.specs.Words.{Text};
ghost use Rattle.rules.specs.Listing.{listing};
ghost use Rattle.listing.specs.Puts.{Puts, Fills};
ghost use Rattle.listing.specs.Whole.{functions_text};

use crate::blocks::put_block;
use crate::items::Item;
use crate::writer::Writer;
use program::file::ReadProgram;
use rules::words::Word;

// The listing of a program, from the buffer's start on: where it ends.
pub fn put_program(program: &ReadProgram, buffer: &mut [u8]) -> usize
    ensures { (text : Text) → listing program.now.bytes.now ≡ ok text → Fills buffer.old text result buffer.new }
{
    let mut out = Writer { buffer, end: 0 };
    out.line(0, Word::Program, &[Item::Number(1)]);
    put_functions(&mut out, program);
    out.line(0, Word::Main, &[]);
    put_block(&mut out, program.bytes, program.main, 1);
    out.end
}

// The heads and bodies of its functions.
fn put_functions(out: &mut Writer, program: &ReadProgram)
    ensures { Puts out.old (functions_text program.now.bytes.now) out.new }
{
    for g in 0..program.functions.count {
        let head = program.functions.heads[g];
        let items = [
            Item::Number(g as u8),
            Item::Word(Word::Locations),
            Item::Number(head.locations),
            Item::Word(Word::Arguments),
            Item::Number(head.arguments),
        ];
        out.line(0, Word::Function, &items);
        put_block(out, program.bytes, head.body, 1);
    }
}
