//! Rows of the echo server's words.

use board_bus::BusEvent;
use board_echo::*;
use flash::Image;
use link_script::{Connects, PeerKind};
use std::process::Abort;
use std::test::Fail;

/// Checks that an image begins with these words, and has FFFF behind them.
fn begins(rt: &impl Abort, image: &Image, words: &[u16]) {
    assert!(rt; words.len() < 16_384);
    for i in 0..words.len() {
        assert_eq!(rt; image.word(i as u16), words[i]);
    }
    assert_eq!(rt; image.word(words.len() as u16), 0xFFFF);
}

/// The first and the last instruction of the listing are `sbi 0x05, 2` and `ret`; it has 138.
#[test]
fn listing_has_138_words(rt: HostRuntime) -> Result<(), Fail> {
    let image = echo_image(rt.alloc())?;
    assert_eq!(rt; image.word(0), 0x9A2A);
    assert_eq!(rt; image.word(137), 0x9508);
    assert_eq!(rt; image.word(138), 0xFFFF);
    assert_eq!(rt; image.word(16_383), 0xFFFF);
    Ok(())
}

/// A frame of one byte: each word by hand.
#[test]
fn frame_of_one_byte(rt: HostRuntime) -> Result<(), Fail> {
    let events = [
        BusEvent::Select(true),
        BusEvent::Byte(0xA5),
        BusEvent::Look,
        BusEvent::Select(false),
    ];
    let words = [
        0x9A2A, 0xE20C, 0xB904, 0xE500, 0xBD0C, 0xE001, 0xBD0D, 0x982A, 0xEA85, 0xD002, 0x9A2A,
        0x9598, 0xBD8E, 0xB40D, 0xFE07, 0xCFFD, 0xB58E, 0x9508,
    ];
    match frames_image(rt.alloc(), &events) {
        Ok(image) => begins(&rt, &image, &words),
        Err(_) => assert!(rt; false),
    }
    Ok(())
}

/// 2,034 words fit beside the start and the end, and one more does not.
#[test]
fn longest_image(rt: HostRuntime) -> Result<(), Fail> {
    let mut events = vec![in rt.alloc(); BusEvent::Byte(0x00); 1017]?;
    match frames_image(rt.alloc(), &events) {
        Ok(image) => {
            assert_eq!(rt; image.word(8), 0xD7F1);
            assert_eq!(rt; image.word(2047), 0x9508);
            assert_eq!(rt; image.word(2048), 0xFFFF);
        }
        Err(_) => assert!(rt; false),
    }
    events.push(BusEvent::Look)?;
    assert!(rt; frames_image(rt.alloc(), &events).is_ok());
    events.push(BusEvent::Select(false))?;
    assert!(rt; matches!(frames_image(rt.alloc(), &events), Err(FramesError::TooLong)));
    Ok(())
}

/// Peer 0 says 1,000 bytes, of which the first is 14, and peer 8,999 says 9,999.
#[test]
fn peers_by_their_numbers(rt: HostRuntime) -> Result<(), Fail> {
    let peer = echo_peer(rt.alloc(), 0)?;
    assert!(rt; matches!(peer.kind, PeerKind::Client));
    assert!(rt; matches!(peer.connect, Connects::Fine));
    assert_eq!(rt; peer.say.len(), 1);
    assert_eq!(rt; peer.say[0].bytes.len(), 1000);
    assert_eq!(rt; peer.say[0].bytes[0], 0x14);
    assert_eq!(rt; peer.end, Some(1000));
    let last = echo_peer(rt.alloc(), 8999)?;
    assert_eq!(rt; last.say.len(), 10);
    assert_eq!(rt; last.say[8].bytes.len(), 1000);
    assert_eq!(rt; last.say[9].bytes.len(), 999);
    assert_eq!(rt; last.end, Some(9999));
    Ok(())
}
