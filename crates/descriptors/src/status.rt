// The segment status register (handbook 3.1.6): its bits by name, and its clean form.
ghost use Rattle.std.specs.Prelude.{◌≡◌};
ghost use Rattle.descriptors.specs.Status.{clean, used, modified, disabled, rewritten};

pub const E: u8 = 1 << 0;

pub const WP: u8 = 1 << 1;

pub const M: u8 = 1 << 2;

pub const IP: u8 = 1 << 3;

pub const I: u8 = 1 << 4;

pub const U: u8 = 1 << 7;

// A bit that has no name is reserved: it cannot be written and is zero when read (section 3).
pub const RESERVED: u8 = !(E | WP | M | IP | I | U);

pub fn clean(ssr: u8) -> u8
    ensures { result ≡ clean ssr }
{
    // No branch, as each descriptor of a block comes this way: E is bit 0, so that this is IP where E is set.
    let ip = (ssr & E) * IP;
    ssr & (!(RESERVED | IP) | ip)
}

// 4.5.3.2: a successful translation sets U, and IP if I is set.
pub fn used(ssr: u8) -> u8
    ensures { result ≡ used ssr }
{
    if ssr & I == 0 { ssr | U } else { ssr | U | IP }
}

// 4.5.3.2: a write sets M.
#[tactic(auto, using(crate::proofs::Tests::raised), unfolding(crate::specs::Status::modified))]
pub fn modified(ssr: u8) -> u8
    ensures { result ≡ modified ssr }
{
    ssr | M
}

// 4.6.3.2: the E bit is cleared, and IP with it (3.1.6).
#[tactic(auto, using(crate::proofs::Tests::lowered), unfolding(crate::specs::Status::disabled))]
pub fn disabled(ssr: u8) -> u8
    ensures { result ≡ disabled ssr }
{
    clean(ssr & !E)
}

// 4.6.2.4: any bit may be written, but E may only be cleared.
pub fn rewritten(old: u8, value: u8) -> u8
    ensures { result ≡ rewritten old value }
{
    if old & E == 0 {
        disabled(value)
    } else {
        clean(value)
    }
}
