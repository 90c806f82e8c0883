// Sets of cards: card k is bit k of a word.
ghost use Rattle.std.specs.Prelude.{◌≡◌, ◌&&◌, ◌||◌, not, ℕ, ◌<◌, ◌^◌, eqb};
ghost use Rattle.table.specs.NameSet.{has};
ghost use Rattle.book.specs.Form.{most_cards};

// The set of one card.
pub fn bit(k: usize) -> u32
    requires { k < most_cards }
    ensures { result ≡ 2 ^ k }
{
    1u32 << k
}

#[tactic(auto, using(crate::proofs::CardSets::with_bit))]
pub fn with_card(word: u32, k: usize) -> u32
    requires { k < most_cards }
    ensures { (i : ℕ) → has result i ≡ (has word i || eqb i k) }
{
    word | bit(k)
}

// The cards of one set that are not in the other.
pub fn without(word: u32, other: u32) -> u32
    ensures { (i : ℕ) → has result i ≡ (has word i && not (has other i)) }
{
    word & !other
}
