// The two predictors: what they predict, and what they learn from a word.
ghost use Rattle.std.specs.Prelude.{◌≡◌, ◌+◌, ◌≤◌, ◌<◌};
ghost use Rattle.words.specs.Words.{low_bits, xor, shifted_left, shifted_right};
ghost use Rattle.block_rules.specs.Predictors.{fcm_prediction, dfcm_prediction, learn};
ghost use Rattle.block_rules.specs.Numbers.{t_of};
ghost use Rattle.block_rules.specs.Inside.{Cleared};
ghost use Rattle.block_choice.specs.Inside.{Masked, held, size, Able, Becomes, Starts};

use block_rules::Carry;

// Both predictors: two tables, lent, and what they carry from word to word. Each table has a lifetime of
// its own: so whoever lent it knows what it holds afterwards.
#[derive(Drop)]
pub struct Predictors<'a, 'b> {
    pub fcm: &'a mut [u64],
    pub dfcm: &'b mut [u64],
    pub carry: Carry,
}

// The new hash of a predictor after what it learnt: the old one shifted left, with the high bits of what
// was learnt. The mask keeps its low t bits.
fn next_hash<const LEFT: u32, const RIGHT: u32>(mask: usize, hash: usize, learnt: u64) -> usize
    requires { Masked mask hash × (LEFT ≤ 48) × (RIGHT < 64) }
    ensures { result ≡ low_bits (t_of (mask + 1)) (xor (shifted_left LEFT hash) (shifted_right RIGHT learnt)) }
{
    ((hash << LEFT) ^ ((learnt >> RIGHT) as usize)) & mask
}

impl<'a, 'b> Predictors<'a, 'b> {
    // The predictors before a block: over tables that were cleared.
    pub fn new(fcm: &'a mut [u64], dfcm: &'b mut [u64]) -> Self
        requires { Cleared fcm.old dfcm.old }
        ensures { Starts fcm.entry dfcm.entry result }
    {
        Predictors {
            fcm,
            dfcm,
            carry: Carry {
                fcm: 0,
                dfcm: 0,
                last: 0,
            },
        }
    }

    // What fcm predicts.
    pub fn fcm_prediction(&self) -> u64
        requires { Able self.now }
        ensures { result ≡ fcm_prediction (held self.now) }
    {
        self.fcm[self.carry.fcm]
    }

    // What dfcm predicts.
    pub fn dfcm_prediction(&self) -> u64
        requires { Able self.now }
        ensures { result ≡ dfcm_prediction (held self.now) }
    {
        std::num::wrapping_add_u64(self.dfcm[self.carry.dfcm], self.carry.last)
    }

    // Both predictors learn a word.
    pub fn learn(&mut self, word: u64)
        requires { Able self.old }
        ensures { Becomes self.old (learn (size self.old) (held self.old) word) self.new }
    {
        let fcm_hash = self.carry.fcm;
        let dfcm_hash = self.carry.dfcm;
        let last = self.carry.last;
        let mask = self.fcm.len() - 1;
        let difference = words::difference(word, last);
        self.fcm[fcm_hash] = word;
        self.dfcm[dfcm_hash] = difference;
        self.carry = Carry {
            fcm: next_hash::<6, 48>(mask, fcm_hash, word),
            dfcm: next_hash::<2, 40>(mask, dfcm_hash, difference),
            last: word,
        };
    }
}
