// Staging: the residual bytes of one word or two go into a small buffer, by one store each, and from
// there to the output.
#![tactic(auto)]

ghost use Rattle.std.specs.Prelude.{◌≡◌, ◌+◌, ◌≤◌, [], ◌++◌, length, slice_index};
ghost use Rattle.std.proofs.lemmas.List.Edits.{sets};
ghost use Rattle.words.specs.Words.{xor};
ghost use Rattle.words.specs.Bytes.{low_bytes};
ghost use Rattle.block_rules.specs.Codes.{dfcm_chosen, chosen, residual_bytes};
ghost use Rattle.block_choice.specs.Inside.{Able};
ghost use Rattle.block_staging.specs.Inside.{Adds, Holds, StagesChosen, StagesWord, StagesPair, MakesRoom};

use block_choice::Predictors;
use block_rules::Coded;
use std::marker::Model;

// Residual bytes that wait to be copied to the output, seen as the list of them and how many more have room.
// The buffer is lent: beside a buffer of its own their number would go through memory with each word, and
// packing would take a tenth to a third longer.
#[derive(Drop)]
pub struct Stage<'a> {
    bytes: &'a mut [u8],
    staged: usize,
}

impl<'a> Model for Stage<'a> {
    ghost use Rattle.std.specs.Prelude.{◌-◌, ◌≤◌, length, take};
    ghost use Rattle.block_staging.specs.Waiting.{Waiting};

    ghost Value = { Waiting };

    ghost view = { λ s. record { held = take s.staged s.bytes.now; room = length s.bytes.now - s.staged; buffer = s.bytes.ghost_name } };

    ghost invariant = { λ s. s.staged ≤ length s.bytes.now };
}

impl<'a> Stage<'a> {
    // A stage where nothing waits. It has room for as many bytes as the buffer.
    pub fn new(bytes: &'a mut [u8]) -> Self
        ensures { (result.held ≡ []) × (result.room ≡ length bytes.old) × (result.buffer ≡ bytes.entry.ghost_name) }
    {
        Stage { bytes, staged: 0 }
    }

    // A stage where the first bytes of the buffer wait already.
    pub fn holding(bytes: &'a mut [u8], staged: usize) -> Self
        requires { staged ≤ length bytes.old }
        ensures { Holds bytes.entry staged result }
    {
        Stage { bytes, staged }
    }

    // The buffer again, and how many of its first bytes wait.
    pub fn into_parts(self) -> (&'a mut [u8], usize)
        ensures { Holds result.0 result.1 self.entry }
    {
        (self.bytes, self.staged)
    }

    // Adds the residual bytes of a code.
    fn push(&mut self, coded: Coded)
        requires { 8 ≤ self.old.room }
        ensures { Adds self.old (residual_bytes coded) self.new }
    {
        store_eight(self.bytes, self.staged, coded.residual);
        self.staged += block_choice::written_by_table(coded.code);
    }

    // Copies what waits to its place, and answers where it ends.
    pub fn flush(&self, out: &mut [u8], at: usize) -> usize
        requires { at + length self.now.held ≤ length out.old }
        ensures { (result ≡ at + length self.now.held) × (out.new ≡ sets out.old at self.now.held) }
    {
        words::copy_in(out, at, &self.bytes[..self.staged]);
        at + self.staged
    }

    // Sees that at most 464 bytes wait: in a buffer of 480, two more words fit then. Answers where what waits
    // then goes.
    pub fn make_room(&mut self, out: &mut [u8], at: usize) -> usize
        requires { at + length self.old.held ≤ length out.old }
        ensures { MakesRoom out.old self.old at out.new self.new result }
    {
        if self.staged <= 464 {
            return at;
        }
        let end = self.flush(out, at);
        self.staged = 0;
        end
    }
}

// Stores all eight bytes of a residual in the stage, low byte first.
#[tactic(auto, using(words::proofs::Stores::stores, words::proofs::Bytes::eight_written))]
fn store_eight(stage: &mut [u8], at: usize, residual: u64)
    requires { at + 8 ≤ length stage.old }
    ensures { stage.new ≡ sets stage.old at (low_bytes 8 residual) }
{
    stage[at..at + 8].copy_from_slice(&residual.to_le_bytes());
}

// Stages the residual bytes of a word, given what fcm and dfcm predict, and answers its code. A word that
// is predicted has no byte, and most words of a map are: so that is asked first, and nothing is worked
// out for it.
fn stage_chosen(stage: &mut Stage, word: u64, fcm_predicts: u64, dfcm_predicts: u64) -> u8
    requires { 8 ≤ stage.old.room }
    ensures { StagesChosen stage.old (chosen dfcm_chosen (xor word fcm_predicts) (xor word dfcm_predicts)) stage.new result }
{
    if word == fcm_predicts {
        return 7;
    }
    if word == dfcm_predicts {
        return 15;
    }
    let coded = block_choice::chosen(word ^ fcm_predicts, word ^ dfcm_predicts);
    stage.push(coded);
    coded.code
}

// Codes one word, stages its residual bytes, and both predictors learn it. Answers its code.
pub fn stage_word(predictors: &mut Predictors, stage: &mut Stage, word: u64) -> u8
    requires { (8 ≤ stage.old.room) × Able predictors.old }
    ensures { StagesWord predictors.old word stage.old predictors.new stage.new result }
{
    let fcm_predicts = predictors.fcm_prediction();
    let dfcm_predicts = predictors.dfcm_prediction();
    predictors.learn(word);
    stage_chosen(stage, word, fcm_predicts, dfcm_predicts)
}

// The same for two words, of which the first is words[at]. Answers both codes in one byte. The second is
// read when its turn has come: no register is free to keep it.
pub fn stage_pair(predictors: &mut Predictors, stage: &mut Stage, words: &[u64], at: usize) -> u8
    requires { (16 ≤ stage.old.room) × Able predictors.old × (at + 2 ≤ length words.now) }
    ensures { StagesPair predictors.old (slice_index words.now at) (slice_index words.now (at + 1)) stage.old predictors.new stage.new result }
{
    let one = stage_word(predictors, stage, words[at]);
    let two = stage_word(predictors, stage, words[at + 1]);
    one * 16 + two
}
