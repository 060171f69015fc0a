// What counting answers.

// What the codes of a block tell: words taken from fcm, words taken from dfcm, residual bytes.
#[derive(Clone, Copy, Default)]
pub struct Tally {
    pub fcm_words: usize,
    pub dfcm_words: usize,
    pub residual_bytes: usize,
}
