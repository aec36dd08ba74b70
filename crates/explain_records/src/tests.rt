// Records of three symbols, in an order worked out by hand.
use crate::keys::Keyed;
use crate::records::SymbolRecords;
use air_source::Side;
use explain_model::SymbolKey;
use fh_base::Slot;
use std::test::Fail;

/// A record of a symbol, with a mark.
#[derive(Clone, Copy, Debug, PartialEq, Eq)]
struct Marked {
    key: SymbolKey,
    mark: u8,
}

impl Keyed for Marked {
    ghost key_of = { λ m. m.key };

    fn symbol_key(&self) -> SymbolKey {
        self.key
    }
}

fn key(side: Side, ep: usize, frame: i64, symbol: u8) -> SymbolKey {
    let slot = Slot {
        frame,
        subframe: 3,
        slot: 1,
    };
    SymbolKey {
        side,
        ep,
        slot,
        symbol,
    }
}

#[test]
fn records_of_a_symbol_stay_in_their_order(rt: HostRuntime) -> Result<(), Fail> {
    let keys = [
        key(Side::Du, 0, 4, 2),
        key(Side::Ru, 1, -7, 2),
        key(Side::Ru, 1, -7, 1),
        key(Side::Ru, 0, 9, 0),
        key(Side::Ru, 1, -7, 2),
        key(Side::Ru, 1, 5, 2),
        key(Side::Du, 0, 4, 2),
        key(Side::Ru, 1, -7, 2),
    ];
    let mut records = SymbolRecords::new(rt.alloc());
    let mut mark = 0;
    for key in keys {
        records.push(Marked { key, mark })?;
        if mark < 100 {
            mark += 1;
        }
    }
    assert_eq!(rt; records.as_slice().len(), 8);
    let ordered = records.order()?;
    let marks: [(SymbolKey, &[u8]); 5] = [
        (key(Side::Ru, 1, -7, 2), &[1, 4, 7]),
        (key(Side::Du, 0, 4, 2), &[0, 6]),
        (key(Side::Ru, 1, -7, 1), &[2]),
        (key(Side::Ru, 0, 4, 2), &[]),
        (key(Side::Du, 1, 4, 2), &[]),
    ];
    for (key, wanted) in marks {
        let found = ordered.of_symbol(key);
        assert_eq!(rt; found.len(), wanted.len());
        for (one, mark) in found.iter().zip(wanted) {
            assert_eq!(rt; one.mark, *mark);
        }
    }
    Ok(())
}
