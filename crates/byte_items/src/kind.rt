ghost use Rattle.std.specs.Prelude.{◌≡◌, ◌+◌, ◌*◌, ◌<◌, ◌≤◌, min, false, [], ◌∷◌, length, take, drop};
ghost use Rattle.std.specs.Coded.{le_prop};
ghost use Rattle.byte_items.specs.Pack.{bytes_slice, pack, value};
ghost use Rattle.std.proofs.Common.{arith, sym, ◌∙◌, ap, rules};
ghost use Rattle.store.specs.Layout.{up};
ghost use Rattle.byte_items.specs.Packed.{length_pack, pack_one};
ghost use Rattle.byte_items.specs.Packed;
ghost use Rattle.byte_items.specs.Pack;
ghost use Rattle.columns.specs.Kinds.{most_items};

use columns::kind::{Kind, Packs, Plain, sole_size};
use items::items::Items;
use words::reading::{ReadStore, item_of};

// Bytes are stored as one slice, 8 to a word.
pub enum BytesKind {}

// A column of bytes over any store of them.
pub type Bytes<S> = Items<S, BytesKind>;

impl Kind<u8> for BytesKind {
    ghost one = { λ _. false };

    ghost fit = { λ b. b < 256 };

    ghost form = { λ xs. bytes_slice xs ∷ [] };

    ghost sizes = { 1 ∷ [] };

    ghost counted = { Prim.search rules };

    ghost formed = { λ xs h. ((length_pack (up (length xs)) xs, omega (arith, h.few)), tt) };

    ghost whole = { Prim.search rules };

    ghost single = { λ xs ys h k e.
        let s : Pack.bytes_slice xs ≡ Pack.bytes_slice ys = cc in
        let l = ap (λ q. q.bytes) s in
        let w = ap (λ q. q.words) s in
        pack_one (up (length xs)) xs ys l (omega arith) h.each k.each (w ∙ ap (λ q. pack (up q) ys) (sym l)) };

    fn slice_count() -> usize {
        1
    }

    fn element_size(k: usize) -> usize {
        sole_size(k, 1)
    }
}

impl Plain<u8> for BytesKind {
    ghost width = { 1 };

    ghost words = { λ xs. pack (up (length xs)) xs };

    ghost fitting = { λ b. b < 256 };

    ghost alone = { λ _. le_prop };

    ghost given = { λ _ h. h };

    ghost sole = { Packed.sole };

    fn fits(_b: u8) {}

    fn width() -> usize {
        1
    }
}

impl<S: ReadStore<Item = u8>> Packs<S> for BytesKind {
    #[tactic(auto, using(crate::proofs::Packing::pack_at))]
    fn word(store: &S, j: usize) -> u64 {
        let n = store.len();
        let from = 8 * j;
        if n - from >= 8 {
            packed(store, from, from + 8)
        } else {
            packed(store, from, n)
        }
    }
}

// Eight of a store's bytes as a word, from place `from` on and lowest first, or as many as there are. The
// caller says where they end, so that the compiler knows how many a whole word has.
#[tactic(auto, using(crate::proofs::Packing::packed_step, crate::proofs::Packing::packed_small, crate::proofs::Packing::packed_fits, crate::proofs::Packing::packed_all))]
fn packed<S: ReadStore<Item = u8>>(store: &S, from: usize, end: usize) -> u64
    requires within { end ≤ length (S.ReadStore.list store.now) }
    requires eight { end ≤ from + 8 }
    requires all { min (length (S.ReadStore.list store.now)) (from + 8) ≤ end }
    ensures { result ≡ value (take 8 (drop from (S.ReadStore.list store.now))) }
{
    let mut word = 0u64;
    for i in (from..end).rev() {
        word = 256 * word + item_of(store, i) as u64;
    }
    word
}
