//! Numbers drawn one after another.

ghost use Rattle.std.specs.Prelude.{◌≡◌};
ghost use Rattle.rv_gen.specs.Draws.{next, drawn, draws, after_draws};

/// The four numbers that an instruction is made of.
#[derive(Clone, Copy)]
pub struct FourDraws {
    pub k: u64,
    pub p: u64,
    pub q: u64,
    pub r: u64,
}

fn next(state: u64) -> u64
    ensures { result ≡ next state }
{
    state
        .wrapping_mul(6364136223846793005)
        .wrapping_add(1442695040888963407)
}

fn drawn(state: u64) -> u64
    ensures { result ≡ drawn state }
{
    next(state) >> 33
}

/// The numbers drawn from a state.
pub(crate) fn draws(state: u64) -> FourDraws
    ensures { result ≡ draws state }
{
    let second = next(state);
    let third = next(second);
    let fourth = next(third);
    FourDraws {
        k: drawn(state),
        p: drawn(second),
        q: drawn(third),
        r: drawn(fourth),
    }
}

/// The state after an instruction's numbers are drawn.
pub(crate) fn after_draws(state: u64) -> u64
    ensures { result ≡ after_draws state }
{
    next(next(next(next(state))))
}
