// Samples that a closure answers.
ghost use Rattle.std.specs.Prelude.{◌≡◌, ◌<◌};
ghost use Rattle.air_source.specs.Answers.{InRange, IsGrid, IsBlock, AnswersBy, block_of, widened};
ghost use Rattle.air_source.specs.Kept.{IsKept, closure_of};
ghost use Rattle.air_source.specs.declared.places.RePlace.{RePlace};
ghost use Rattle.bfp_codec.specs.declared.samples.Wide.{Wide};
ghost use Rattle.fh_base.specs.declared.symbols.TheConstants.{SLOT_SYMBOLS};
ghost use Rattle.fh_base.specs.declared.carrier.TheConstants.{CARRIER_PRBS};

use crate::RePlace;
use bfp_codec::{Iq, Wide};
use fh_base::Slot;

/// The samples that a closure answers, kept beside what is known of it: `keep` gives the fact and
/// `block` needs it, so no range is tested.
#[derive(Drop)]
pub struct Samples<F: Fn(RePlace) -> Wide> {
    answer: F,
}

impl<F: Fn(RePlace) -> Wide> Samples<F> {
    /// Keeps a closure. At every place with a symbol under 14, a PRB under 273 and an element under 12
    /// it may be called and has one answer, and both its numbers lie from -32,768 to 32,767.
    pub fn keep(f: F) -> Samples<F>
        requires { IsGrid F.pre F.post f }
        ensures kept { IsKept F.pre F.post result }
        ensures same { closure_of result ≡ f }
    {
        Samples { answer: f }
    }

    // The closure's answer at a place, in 16 bits.
    #[inline(always)]
    fn sample(&self, place: RePlace) -> Iq
        requires kept { IsKept F.pre F.post self.now }
        requires place { InRange place }
        ensures { F.post (closure_of self.now) place (widened result) }
    {
        let wide = (self.answer)(place);
        Iq {
            i: wide.i as i16,
            q: wide.q as i16,
        }
    }

    /// The twelve samples of a PRB in a symbol under 14, the PRB under 273: the closure's answers at
    /// elements 0 to 11. This takes no memory.
    pub fn block(&self, id: u16, slot: Slot, symbol: u8, prb: u16) -> [Iq; 12]
        requires kept { IsKept F.pre F.post self.now }
        requires symbol { symbol < SLOT_SYMBOLS }
        requires prb { prb < CARRIER_PRBS }
        ensures answers { IsBlock (F.post (closure_of self.now)) id slot symbol prb result }
        ensures block { (answer : RePlace → Wide) → AnswersBy (F.post (closure_of self.now)) answer → result ≡ block_of answer id slot symbol prb }
    {
        let mut block = [Iq { i: 0, q: 0 }; 12];
        for re in 0..12u8 {
            block[re as usize] = self.sample(RePlace {
                id,
                slot,
                symbol,
                prb,
                re,
            });
        }
        block
    }
}
