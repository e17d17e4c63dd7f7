// Examples of the schemes and of the orders, as tests, and two ways to hand a cell to a reclaimer.
#![tactic(auto)]

ghost use Rattle.std.specs.Prelude.{◌≡◌, is_some};
ghost use Rattle.reclaim.specs.Model.{owed, after_retire};
ghost use Rattle.scheme_examples.specs.Offers.{why_refused};

use reclaim::{Reclaimer, Refusal, Unlinked, Unpaid};

// Retires the cell, and says whether there was such a cell that was not held.
pub fn retire_cell<R: Reclaimer>(reclaimer: &mut R, cell: u8) -> bool
    ensures answer { result ≡ is_some (owed R.model (R.state reclaimer.old) cell) }
    ensures after { R.state reclaimer.new ≡ after_retire R.model (R.state reclaimer.old) cell }
{
    let Some(debt) = Unlinked::of(reclaimer, cell) else {
        return false;
    };
    reclaimer.retire(debt).unwrap();
    true
}

// Makes a token beside one reclaimer and offers it to another. A refused token comes back, and its maker takes it.
pub fn offer<R: Reclaimer>(maker: &mut R, taker: &mut R, cell: u8) -> Option<Refusal>
    ensures { result ≡ why_refused R.model (R.state maker.old) (R.state taker.old) cell }
{
    let debt = Unlinked::of(maker, cell)?;
    match taker.retire(debt) {
        Ok(()) => None,
        Err(Unpaid { why, debt }) => {
            maker.retire(debt).unwrap();
            Some(why)
        }
    }
}

#[cfg(test)]
mod tests {
    use super::*;
    use items::{ByteString, ItemOrder};
    use reclaim::{Epochs, HazardPointers, QuiescentStates, Unmade};
    use std::cmp::Ordering;
    use std::process::Abort;
    use std::test::Fail;

    #[test]
    fn byte_strings_in_order(rt: HostRuntime) -> Result<(), Fail> {
        let empty = ByteString::new(b"")?;
        let a = ByteString::new(b"A")?;
        let ab = ByteString::new(b"AB")?;
        let abc = ByteString::new(b"ABC")?;
        let low = ByteString::new(&[0x7f])?;
        let high = ByteString::new(&[0x80])?;
        assert_eq!(rt; empty.compare(&a), Ordering::Less);
        assert_eq!(rt; ab.compare(&abc), Ordering::Less);
        assert_eq!(rt; low.compare(&high), Ordering::Less);
        assert_eq!(rt; abc.as_bytes(), b"ABC".as_slice());
        let refused = ByteString::new(b"twelve bytes").err();
        assert_eq!(rt; refused.map(|too_long| too_long.code()), Some(4));
        Ok(())
    }

    #[test]
    fn epochs_give_at_once(rt: HostRuntime) -> Result<(), Fail> {
        let mut epochs = Epochs::new(rt.alloc(), 8, 256)?;
        assert!(rt; retire_cell(&mut epochs, 200));
        assert_eq!(rt; epochs.collect(), Some(200));
        Ok(())
    }

    #[test]
    fn hazard_pointers_pass_over_a_named_cell(rt: HostRuntime) -> Result<(), Fail> {
        let mut hazard = HazardPointers::new(rt.alloc(), 1, 6)?;
        assert!(rt; retire_cell(&mut hazard, 4));
        assert!(rt; retire_cell(&mut hazard, 5));
        hazard.enter(0)?;
        hazard.protect(0, 0, 4)?;
        assert_eq!(rt; hazard.collect(), Some(5));
        assert_eq!(rt; hazard.collect(), None);
        Ok(())
    }

    fn code<T: Drop>(made: Result<T, Unmade>) -> u16 {
        made.err().map_or(0, |why| why.code())
    }

    #[test]
    fn sizes_in_range(rt: HostRuntime) {
        for (sessions, cells, refusal) in [
            (8, 256, 0),
            (1, 1, 0),
            (9, 256, 3),
            (8, 257, 3),
            (0, 1, 3),
            (1, 0, 3),
        ] {
            assert_eq!(rt;
                code(HazardPointers::new(rt.alloc(), sessions, cells)),
                refusal
            );
            assert_eq!(rt; code(Epochs::new(rt.alloc(), sessions, cells)), refusal);
            assert_eq!(rt;
                code(QuiescentStates::new(rt.alloc(), sessions, cells)),
                refusal
            );
        }
    }

    fn number(refused: Option<Refusal>) -> u16 {
        refused.map_or(0, |why| why.code())
    }

    // Two sessions, and cells 0 to 2 in the small one, 0 to 3 in the large one.
    fn refuse_in_order<R: Reclaimer>(rt: &impl Abort, small: &mut R, large: &mut R) {
        let enters = [
            number(small.enter(2).err()),
            number(small.enter(0).err()),
            number(small.enter(0).err()),
        ];
        assert_eq!(rt; enters, [31, 0, 34]);
        let leaves = [number(small.leave(2).err()), number(small.leave(1).err())];
        assert_eq!(rt; leaves, [31, 35]);
        let protects = [
            number(small.protect(2, 3, 3).err()),
            number(small.protect(1, 3, 3).err()),
            number(small.protect(0, 3, 3).err()),
            number(small.protect(0, 2, 3).err()),
        ];
        assert_eq!(rt; protects, [31, 35, 32, 33]);
        let retires = [
            number(offer(large, small, 2)),
            number(offer(large, small, 3)),
            number(offer(large, small, 2)),
        ];
        assert_eq!(rt; retires, [0, 33, 36]);
        let inside = [small.is_inside(0), small.is_inside(1), small.is_inside(255)];
        assert_eq!(rt; inside, [true, false, false]);
        assert!(rt; small.is_held(2) && !small.is_held(3) && small.held_count() == 1);
    }

    #[test]
    fn refusals_in_order(rt: HostRuntime) -> Result<(), Fail> {
        let heap = rt.alloc();
        refuse_in_order(
            &rt,
            &mut HazardPointers::new(heap, 2, 3)?,
            &mut HazardPointers::new(heap, 2, 4)?,
        );
        refuse_in_order(
            &rt,
            &mut Epochs::new(heap, 2, 3)?,
            &mut Epochs::new(heap, 2, 4)?,
        );
        refuse_in_order(
            &rt,
            &mut QuiescentStates::new(heap, 2, 3)?,
            &mut QuiescentStates::new(heap, 2, 4)?,
        );
        Ok(())
    }
}
