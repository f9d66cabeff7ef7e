// Blocks and statements: a loop goes over a block's statements, and only nesting recurses. Main's own block is not closed: 17 is not asked of it,
// and the rest of a closing changes no qubit.
ghost use Rattle.std.specs.Prelude.{◌≡◌};
ghost use Rattle.rules.specs.Basics.{byte};
ghost use Rattle.typing.specs.Cases.{BlockCase, BlockTyped, StatementsTyped, StatementCase, StatementTyped};

use super::body::Body;
use super::env::{Env, Typed};
use answers::{Fault, Refusal};
use rules::bytes::{slot, word_at};
use rules::statements::Kind;

impl Body<'_> {
    // A block: its statements, then its closing.
    #[cycle(blocks)]
    pub fn type_block(&self, env: Env, at: usize) -> Result<Typed, Refusal>
        requires { BlockCase self.now env at }
        ensures { BlockTyped self.now env at result }
    {
        let typed = self.type_statements(env, at)?;
        typed.close(env, at)
    }

    // The statements of the block at `at`, one after the other. The block is not closed.
    #[cycle(blocks)]
    pub fn type_statements(&self, env: Env, at: usize) -> Result<Typed, Refusal>
        requires { BlockCase self.now env at }
        ensures { StatementsTyped self.now env at result }
    {
        let first = at + 2;
        let stop = first + word_at(self.bytes, at);
        let mut typed = Typed { next: first, env };
        // no range counts this loop: where the next statement stands is what this one answers
        while typed.next < stop {
            typed = self.type_statement(typed.env, typed.next)?;
        }
        Ok(typed)
    }

    #[cycle(blocks)]
    fn type_statement(&self, env: Env, at: usize) -> Result<Typed, Refusal>
        requires { StatementCase self.now env at }
        ensures { StatementTyped self.now env at result }
    {
        let s = self.bytes;
        let kind = Kind::known(s[at]);
        let next = at + kind.size();
        match kind {
            Kind::Init | Kind::Magic => env.init(self.inside, at, next, slot(s, at + 1), s[at + 2]),
            Kind::Free => env.free(at, next, slot(s, at + 1)),
            Kind::Gate => env.gate(at, next, slot(s, at + 2)),
            Kind::Measure => env.measure(at, next, slot(s, at + 1), slot(s, at + 3)),
            Kind::Merge => env.merge(at, next, slot(s, at + 1), slot(s, at + 3), slot(s, at + 5)),
            Kind::Ref => env.new_reference(at, next, slot(s, at + 1), slot(s, at + 2)),
            Kind::Get => env.get_reference(at, next, slot(s, at + 1), slot(s, at + 2)),
            Kind::Set => env.set_reference(at, next, slot(s, at + 1), slot(s, at + 2)),
            Kind::If => self.type_if(env, at),
            Kind::While => self.type_while(env, at),
            Kind::Call => self.type_call(env, at),
            Kind::Bool => env.constant(at, next, slot(s, at + 1)),
        }
    }

    // 11, both blocks from the same environment, 18.
    #[cycle(blocks)]
    fn type_if(&self, env: Env, at: usize) -> Result<Typed, Refusal>
        requires stands { StatementCase self.now env at }
        requires starts { byte self.now.bytes.now at ≡ 10 }
        ensures { StatementTyped self.now env at result }
    {
        env.need_bool(slot(self.bytes, at + 1), at)?;
        let first = self.type_block(env, at + 2)?;
        let second = self.type_block(env, first.next)?;
        if !first.env.same(second.env) {
            return Err(Fault::BranchesDiffer.at(at));
        }
        Ok(Typed {
            next: second.next,
            env: first.env,
        })
    }

    // 11, the body, 19.
    #[cycle(blocks)]
    fn type_while(&self, env: Env, at: usize) -> Result<Typed, Refusal>
        requires stands { StatementCase self.now env at }
        requires starts { byte self.now.bytes.now at ≡ 11 }
        ensures { StatementTyped self.now env at result }
    {
        env.need_reference(slot(self.bytes, at + 1), at)?;
        let body = self.type_block(env, at + 2)?;
        if !body.env.same(env) {
            return Err(Fault::LoopChanges.at(at));
        }
        Ok(Typed {
            next: body.next,
            env,
        })
    }
}
