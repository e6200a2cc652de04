//! The first of the answers that are left, and the trace of those that were taken.

ghost use Rattle.std.specs.Prelude.{◌≡◌, ◌∷◌, [], OnOk, OnErr, IfOk};
ghost use Rattle.std.specs.Option.{option_and_then};
ghost use Rattle.rv_full.specs.Rows.{first, rest, bits_of, vectors_of, stored_of, success_of, length_of, entry_of, noted};
ghost use Rattle.rv_full.specs.Steps.{with_own, with_answers};

use crate::answer::{Answer, Entry, bits_of, length_of, stored_of, success_of, vectors_of};
use crate::machine::FullMachine;
use rv_base::{List, OutOfMemory};
use rv_machine::Decoded;

impl FullMachine {
    /// The first answer's number, where it is one.
    pub(crate) fn first_bits(&self) -> Option<u64>
        ensures { result ≡ option_and_then bits_of (first self.now.full.answers) }
    {
        match self.answers.get(self.answers_taken) {
            Some(answer) => bits_of(answer),
            None => None,
        }
    }

    pub(crate) fn first_success(&self) -> Option<bool>
        ensures { result ≡ option_and_then success_of (first self.now.full.answers) }
    {
        match self.answers.get(self.answers_taken) {
            Some(answer) => success_of(answer),
            None => None,
        }
    }

    pub(crate) fn first_length(&self) -> Option<u8>
        ensures { result ≡ option_and_then length_of (first self.now.full.answers) }
    {
        match self.answers.get(self.answers_taken) {
            Some(answer) => length_of(answer),
            None => None,
        }
    }

    /// A copy of the first answer's registers, where it has them.
    pub(crate) fn first_vectors(&self) -> Result<Option<List<(u8, u128)>>, OutOfMemory>
        ensures { IfOk result (λ registers. registers ≡ option_and_then vectors_of (first self.now.full.answers)) }
    {
        match self.answers.get(self.answers_taken) {
            Some(answer) => vectors_of(self.alloc, answer),
            None => Ok(None),
        }
    }

    /// A copy of the first answer's bytes, where it has them.
    pub(crate) fn first_stored(&self) -> Result<Option<List<Option<u8>>>, OutOfMemory>
        ensures { IfOk result (λ bytes. bytes ≡ option_and_then stored_of (first self.now.full.answers)) }
    {
        match self.answers.get(self.answers_taken) {
            Some(answer) => stored_of(self.alloc, answer),
            None => Ok(None),
        }
    }

    /// The first answer is taken.
    pub(crate) fn take(&mut self)
        ensures { self.new ≡ with_answers self.old (rest self.old.full.answers) }
    {
        if self.answers_taken < self.answers.len() {
            self.answers_taken += 1;
        }
    }

    /// Notes an operation that takes an answer, with these inputs, these bytes of a load, the setting and frm.
    pub(crate) fn note(
        &mut self,
        d: Decoded,
        inputs: List<u128>,
        span: List<u8>,
        answer: Answer,
    ) -> Result<(), OutOfMemory>
        ensures ok { OnOk result (self.new ≡ with_own self.old (noted (entry_of d self.old.full.units inputs span answer) self.old.full.units)) }
        ensures err { OnErr result (self.new ≡ self.old) }
    {
        let entry = Entry {
            decoded: d,
            inputs,
            avl: self.setting.avl,
            vtype: self.setting.vtype,
            frm: self.frm,
            span,
            answer,
        };
        self.trace.push(entry)?;
        Ok(())
    }
}
