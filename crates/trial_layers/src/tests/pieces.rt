//! Pieces that one seat draws, and that two draw.

ghost use Rattle.std.specs.Prelude.{◌≡◌, ◌<◌, ◌≤◌, ◌^◌, All, IfSome};
ghost use Rattle.work_pieces.specs.Passes.{IsPassOf, IsFresh, seats_of};

use std::test::Fail;
use work_pieces::{DrawPass, Piece, Pieces};

/// The piece with this number, start and end.
fn piece(number: u64, start: u64, end: u64) -> Option<Piece> {
    Some(Piece { number, start, end })
}

/// Whether the pass draws these pieces in turn, and then none twice.
fn draws(pieces: &Pieces, pass: &mut DrawPass, wanted: &[(u64, u64, u64)]) -> bool
    requires own { IsPassOf pieces.now pass.old }
    requires one { seats_of pass.old ≡ 1 }
{
    for (number, start, end) in wanted {
        if pieces.draw(pass) != piece(*number, *start, *end) {
            return false;
        }
    }
    pieces.draw(pass).is_none() && pieces.draw(pass).is_none()
}

/// The last of the passes that were opened.
fn take_pass(_pieces: &Pieces, passes: &mut Vec<DrawPass>) -> Option<DrawPass>
    requires { All (λ pass. IsPassOf _pieces.now pass × IsFresh pass) passes.old.items }
    ensures last { IfSome result (λ pass. IsPassOf _pieces.now pass × IsFresh pass) }
    ensures others { All (λ pass. IsPassOf _pieces.now pass × IsFresh pass) passes.new.items }
{
    passes.pop()
}

/// Unites two passes into one.
fn unite_draws(pieces: &Pieces, first: DrawPass, second: DrawPass) -> DrawPass
    requires own { IsPassOf pieces.now first × IsPassOf pieces.now second }
    requires one { seats_of first ≡ 1 }
{
    let all = pieces.unite(first, second);
    pieces.complete(all)
}

#[test]
fn five_things_are_three_pieces(rt: HostRuntime) -> Result<(), Fail> {
    let rows: [(u64, u64, &[(u64, u64, u64)]); 5] = [
        (5, 2, &[(0, 0, 2), (1, 2, 4), (2, 4, 5)]),
        (4, 2, &[(0, 0, 2), (1, 2, 4)]),
        (0, 1, &[]),
        (1, 65_536, &[(0, 0, 1)]),
        (3, 1, &[(0, 0, 1), (1, 1, 2), (2, 2, 3)]),
    ];
    for (count, size, wanted) in rows {
        assert!(rt; count < 100 && 0 < size && size <= 65_536);
        let (pieces, mut passes) = Pieces::open(rt.alloc(), count, size, 1)?;
        let Some(mut pass) = take_pass(&pieces, &mut passes) else {
            return Err(Fail::from("no pass"));
        };
        assert!(rt;
            draws(&pieces, &mut pass, wanted),
            "{count} things by {size}"
        );
    }
    Ok(())
}

#[test]
fn two_seats_draw_in_turn(rt: HostRuntime) -> Result<(), Fail> {
    let (pieces, mut passes) = Pieces::open(rt.alloc(), 5, 2, 2)?;
    let Some(mut second) = take_pass(&pieces, &mut passes) else {
        return Err(Fail::from("no pass"));
    };
    let Some(mut first) = take_pass(&pieces, &mut passes) else {
        return Err(Fail::from("no pass"));
    };
    assert!(rt; pieces.draw(&mut first) == piece(0, 0, 2));
    assert!(rt; pieces.draw(&mut second) == piece(1, 2, 4));
    assert!(rt; pieces.draw(&mut first) == piece(2, 4, 5));
    assert!(rt; pieces.draw(&mut second).is_none());
    assert!(rt; pieces.draw(&mut first).is_none());
    let all = unite_draws(&pieces, first, second);
    drop(all);
    Ok(())
}
