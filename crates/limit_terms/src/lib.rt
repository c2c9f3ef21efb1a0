// The terms of the limits for t bad cabinets, on plain numbers: which limits are stated, and what the wider ones are
// shares and quotients of.
#![tactic(auto)]

ghost use Rattle.std.specs.Prelude.{◌≡◌, ◌+◌, ◌*◌, leb};

// Whether the planned limits hold.
pub fn is_planned(m: u32, t: u32) -> bool
    ensures { result ≡ leb t m }
{
    t <= m
}

// Whether so many are bad that they are a quorum, and nothing is promised.
pub fn is_quorum(need: u32, t: u32) -> bool
    ensures { result ≡ leb need t }
{
    need <= t
}

// The cabinets whose share of the window the gap is.
pub fn gap_parts(n: u8, m: u8, t: u8) -> u32
    ensures { result ≡ n + 2 * t + 2 * m }
{
    (n as u32) + 2 * (t as u32) + 2 * (m as u32)
}

// The cabinets whose share of the window the error grows by.
pub fn error_parts(m: u8, t: u8) -> u32
    ensures { result ≡ m + t }
{
    (m as u32) + (t as u32)
}

// What the used values of a cabinet are away from true time, in sum, beyond its accuracy.
pub fn excess(m: u8, t: u8, window: u32) -> u64
    ensures { result ≡ (m + t) * window }
{
    let bad = (m as u64) + (t as u64);
    bad * (window as u64)
}
