// The rules of a block. This crate has no function: its definitions are in specs/, their laws and what
// is promised of them in proofs/. Here are the structs that both the rules and the code speak of.
#![tactic(auto)]

ghost use Rattle.block_rules.specs.Inside.{Counted};

// What the predictors carry from word to word beside their tables: the fcm hash, the dfcm hash and
// the last word.
#[derive(Clone, Copy)]
pub struct Carry {
    pub fcm: usize,
    pub dfcm: usize,
    pub last: u64,
}

// A code and the residual that it stands for.
#[derive(Clone, Copy)]
pub struct Coded {
    pub code: u8,
    pub residual: u64,
}

// A block that has all the codes that it counts: at most 65,536.
#[derive(Clone, Copy)]
pub struct CountedBlock<'a> {
    pub bytes: &'a [u8],
    pub count: usize,
    pub ghost counted: { Counted bytes.now count },
}
