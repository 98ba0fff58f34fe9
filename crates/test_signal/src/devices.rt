use irig_device::{LineEnd, ReadFault, Watched};
use test_devices::{Break, Endless, Fuse};

#[test]
fn a_reader_in_memory_gives_bytes_and_a_line_and_then_none(rt: HostRuntime) {
    let mut input = Watched::new(b"abc\n".as_slice());
    let mut line = Vec::new(rt.alloc());
    assert!(rt; input.read_byte() == Ok(Some(b'a')));
    assert!(rt; input.read_line(3, &mut line) == Ok(LineEnd::Newline));
    assert!(rt; line.as_slice() == b"bc".as_slice());
    assert!(rt; input.read_byte() == Ok(None) && !input.failed());
    assert!(rt; input.into_inner().is_empty());
}

/// Pieces are as long as the room for them, or as what is left; the third call breaks.
#[test]
fn a_reader_gives_pieces(rt: HostRuntime) {
    let mut input = Watched::new(Fuse::new(b"abcde".as_slice(), 2, Break::Fail));
    let mut piece = [0u8; 3];
    assert!(rt; input.read_some(&mut piece) == Ok(3) && piece == *b"abc");
    assert!(rt; input.read_some(&mut piece) == Ok(2) && piece == *b"dec");
    assert!(rt; input.read_some(&mut piece).is_err() && input.failed());
}

#[test]
fn a_reader_in_memory_ends_with_an_empty_piece(rt: HostRuntime) {
    let mut input = Watched::new(b"".as_slice());
    assert!(rt; input.read_some(&mut [0u8; 3]) == Ok(0) && !input.failed());
}

/// Four calls give the four bytes that show that the line is too long; the fifth breaks.
#[test]
fn a_line_that_is_too_long_takes_no_more_calls_than_bytes(rt: HostRuntime) {
    let mut input = Watched::new(Fuse::new(Endless(b'a'), 4, Break::Fail));
    let mut line = Vec::new(rt.alloc());
    assert!(rt; input.read_line(3, &mut line) == Ok(LineEnd::TooLong) && !input.failed());
    assert!(rt; line.as_slice() == b"aaaa".as_slice());
    assert!(rt; input.read_line(3, &mut line) == Err(ReadFault::Device) && input.failed());
}

#[test]
fn a_writer_takes_what_it_has_room_for(rt: HostRuntime) {
    let mut room = [0u8; 3];
    let mut output = Watched::new(room.as_mut_slice());
    assert!(rt; output.write_all(b"ab") == Ok(()));
    assert!(rt; output.write_some(b"cd") == Ok(1) && !output.failed());
    assert!(rt; output.write_all(b"d").is_err() && output.failed());
    assert!(rt; room == *b"abc");
}
