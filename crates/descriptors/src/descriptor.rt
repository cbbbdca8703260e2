// A descriptor: a memory segment and how it is mapped to physical addresses (handbook 3.1).
ghost use Rattle.std.specs.Prelude.{◌≡◌};
ghost use Rattle.descriptors.specs.Descriptor.{enabled, protected, pending, with_ssr, bytes};
ghost use Rattle.descriptors.specs.Descriptor.{range_match, space_match, match_answer, physical_page, clashes, collides};

use crate::status;

// The nine bytes, in accumulator order (Table 3-1).
#[derive(Clone, Copy)]
pub struct Descriptor {
    pub lba: u16,
    pub lam: u16,
    pub pba: u16,
    pub asn: u8,
    pub ssr: u8,
    pub asm: u8,
}

// What a descriptor is asked for: a logical page, in the address space of this number (4.5.3.1).
#[derive(Clone, Copy)]
pub struct Logical {
    pub page: u16,
    pub number: u8,
}

// Whether a descriptor matches, and if not, why (document 02, P4).
#[derive(Clone, Copy)]
pub enum Match {
    Yes,
    Disabled,
    RangeDiffers,
    SpaceDiffers,
    BothDiffer,
}

impl Descriptor {
    // Three questions of one form, each by the handbook's name: a bit as a parameter would say less where they are asked.
    // 3.1.6: only an enabled segment takes part in matching.
    #[tactic(auto, using(masks::proofs::Bits::test_of))]
    pub fn enabled(&self) -> bool
        ensures { result ≡ enabled self.now }
    {
        self.ssr & status::E != 0
    }

    // 3.1.6.
    #[tactic(auto, using(masks::proofs::Bits::test_of))]
    pub fn protected(&self) -> bool
        ensures { result ≡ protected self.now }
    {
        self.ssr & status::WP != 0
    }

    // 3.1.6.
    #[tactic(auto, using(masks::proofs::Bits::test_of))]
    pub fn pending(&self) -> bool
        ensures { result ≡ pending self.now }
    {
        self.ssr & status::IP != 0
    }

    // A store, and no struct update: with that a load costs 363 instructions more.
    pub fn with_ssr(mut self, ssr: u8) -> Descriptor
        ensures { result ≡ with_ssr self ssr }
    {
        self.ssr = ssr;
        self
    }

    // 4.5.3.1.
    fn range_match(&self, page: u16) -> bool
        ensures { result ≡ range_match self.now page }
    {
        masks::agree(self.lam, page, self.lba)
    }

    // 4.5.3.1.
    fn space_match(&self, number: u8) -> bool
        ensures { result ≡ space_match self.now number }
    {
        masks::agree(self.asm, number, self.asn)
    }

    // 4.5.3.2, and E, which decides before the other two.
    #[tactic(auto, unfolding(crate::specs::Descriptor::match_answer))]
    pub fn match_answer(&self, logical: Logical) -> Match
        ensures { result ≡ match_answer self.now logical.page logical.number }
    {
        if self.enabled() {
            if self.range_match(logical.page) {
                if self.space_match(logical.number) {
                    Match::Yes
                } else {
                    Match::SpaceDiffers
                }
            } else if self.space_match(logical.number) {
                Match::RangeDiffers
            } else {
                Match::BothDiffer
            }
        } else {
            Match::Disabled
        }
    }

    // 3.1.3, 4.5.3.2.
    pub fn physical_page(self, page: u16) -> u16
        ensures { result ≡ physical_page self page }
    {
        masks::gate(self.lam, page, self.pba)
    }

    // Table 3-1. A method and no `From`, as `to_be_bytes` is one: its name says what the array holds.
    pub fn bytes(self) -> [u8; 9]
        ensures { result ≡ bytes self }
    {
        let [lba_high, lba_low] = self.lba.to_be_bytes();
        let [lam_high, lam_low] = self.lam.to_be_bytes();
        let [pba_high, pba_low] = self.pba.to_be_bytes();
        [
            lba_high, lba_low, lam_high, lam_low, pba_high, pba_low, self.asn, self.ssr, self.asm,
        ]
    }

    // 4.6.3.2. E counts as set in both: a load asks before it enables.
    #[tactic(auto, unfolding(crate::specs::Descriptor::clashes))]
    fn clashes(&self, other: &Descriptor) -> bool
        ensures { result ≡ clashes self.now other.now }
    {
        masks::clash(self.lam, self.lba, other.lam, other.lba)
            && masks::clash(self.asm, self.asn, other.asm, other.asn)
    }

    // 4.6.3.2: only an enabled descriptor causes a collision.
    pub fn collides(&self, other: &Descriptor) -> bool
        ensures { result ≡ collides self.now other.now }
    {
        other.enabled() && self.clashes(other)
    }
}
