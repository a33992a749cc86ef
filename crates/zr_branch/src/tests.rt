use crate::leaf::with_move;
use std::test::Fail;
use zr_asked::Move;

#[test]
fn a_move_goes_to_the_end_of_a_path(rt: HostRuntime) -> Result<(), Fail> {
    let alloc = rt.alloc();
    let path = with_move(
        alloc,
        &[Move::VarZero { pair: 1 }],
        Move::RowZero { pair: 2 },
    )?;
    assert_eq!(rt; path.len(), 2);
    match path[1] {
        Move::RowZero { pair } => {
            assert_eq!(rt; pair, 2);
            Ok(())
        }
        _ => Err(Fail::from("another move")),
    }
}
