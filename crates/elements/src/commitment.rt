// A commitment, of which nothing is known but its bytes.
ghost use Rattle.std.specs.Prelude.{◌≡◌, Decides};

#[derive(Clone, Copy, Debug, PartialEq, Eq)]
pub struct Commitment {
    pub bytes: [u8; 32],
}

// A theorem with no work to do: == says whether the bytes are the same.
pub fn equality()
    ensures { (a b : Commitment) → Decides (⟦<Commitment as PartialEq>⟧.eq a b) (a.bytes ≡ b.bytes) }
{}
