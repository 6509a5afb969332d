//! Words and texts worked by hand from the manual's opcodes, and every word there and back.
use avr_enc::{encode, text};
use avr_table::{Bits, DecodeFault, Instr, decode, two_words};
use std::test::Fail;
use wz_base::{MemSink, WriteError};

/// A word of each row, and the word that follows it.
#[rattlefmt::skip]
const ROWS: [(u16, u16); 86] = [
    (0x0000, 0xFFFF), (0x01FC, 0xFFFF), (0x02D9, 0xFFFF), (0x0326, 0xFFFF), (0x037B, 0xFFFF), (0x03C0, 0xFFFF),
    (0x039D, 0xFFFF), (0x07B1, 0xFFFF), (0x087B, 0xFFFF), (0x0E40, 0xFFFF), (0x1215, 0xFFFF), (0x17EA, 0xFFFF),
    (0x1BBF, 0xFFFF), (0x1D84, 0xFFFF), (0x2159, 0xFFFF), (0x2411, 0xFFFF), (0x2AF3, 0xFFFF), (0x2EC8, 0xFFFF),
    (0x30A0, 0xFFFF), (0x4662, 0xFFFF), (0x5637, 0xFFFF), (0x660C, 0xFFFF), (0x77D1, 0xFFFF), (0xA9A6, 0xFFFF),
    (0x8189, 0xFFFF), (0x8340, 0xFFFF), (0x8389, 0xFFFF), (0x9180, 0x0100), (0x90F1, 0xFFFF), (0x9142, 0xFFFF),
    (0x9199, 0xFFFF), (0x904A, 0xFFFF), (0x903C, 0xFFFF), (0x908D, 0xFFFF), (0x90DE, 0xFFFF), (0x9124, 0xFFFF),
    (0x9005, 0xFFFF), (0x91CF, 0xFFFF), (0x9380, 0x00C1), (0x9261, 0xFFFF), (0x92B2, 0xFFFF), (0x9309, 0xFFFF),
    (0x935A, 0xFFFF), (0x93AC, 0xFFFF), (0x920D, 0xFFFF), (0x924E, 0xFFFF), (0x93CF, 0xFFFF), (0x94E0, 0xFFFF),
    (0x9531, 0xFFFF), (0x9582, 0xFFFF), (0x95D3, 0xFFFF), (0x9425, 0xFFFF), (0x9476, 0xFFFF), (0x94C7, 0xFFFF),
    (0x951A, 0xFFFF), (0x9478, 0xFFFF), (0x94F8, 0xFFFF), (0x9508, 0xFFFF), (0x9518, 0xFFFF), (0x9588, 0xFFFF),
    (0x9598, 0xFFFF), (0x95A8, 0xFFFF), (0x95C8, 0xFFFF), (0x95E8, 0xFFFF), (0x9409, 0xFFFF), (0x9509, 0xFFFF),
    (0x940C, 0x0034), (0x949E, 0x59A7), (0x9677, 0xFFFF), (0x9701, 0xFFFF), (0x980D, 0xFFFF), (0x9932, 0xFFFF),
    (0x9A5F, 0xFFFF), (0x9B84, 0xFFFF), (0x9E15, 0xFFFF), (0xB7CD, 0xFFFF), (0xBE1F, 0xFFFF), (0xCFFF, 0xFFFF),
    (0xD000, 0xFFFF), (0xE088, 0xFFFF), (0xF201, 0xFFFF), (0xF7D9, 0xFFFF), (0xF9D1, 0xFFFF), (0xFA26, 0xFFFF),
    (0xFC73, 0xFFFF), (0xFEC0, 0xFFFF),
];

/// Their texts, a line each.
const TEXTS: &str = "\
nop\n\
movw r30, r24\n\
muls r29, r25\n\
mulsu r18, r22\n\
fmul r23, r19\n\
fmuls r20, r16\n\
fmulsu r17, r21\n\
cpc r27, r17\n\
sbc r7, r11\n\
add r4, r16\n\
cpse r1, r21\n\
cp r30, r26\n\
sub r27, r31\n\
adc r24, r4\n\
and r21, r9\n\
eor r1, r1\n\
or r15, r19\n\
mov r12, r24\n\
cpi r26, 0x00\n\
sbci r22, 0x62\n\
subi r19, 0x67\n\
ori r16, 0x6C\n\
andi r29, 0x71\n\
ldd r26, Z+54\n\
ldd r24, Y+1\n\
std Z+0, r20\n\
std Y+1, r24\n\
lds r24, 0x0100\n\
ld r15, Z+\n\
ld r20, -Z\n\
ld r25, Y+\n\
ld r4, -Y\n\
ld r3, X\n\
ld r8, X+\n\
ld r13, -X\n\
lpm r18, Z\n\
lpm r0, Z+\n\
pop r28\n\
sts 0x00C1, r24\n\
st Z+, r6\n\
st -Z, r11\n\
st Y+, r16\n\
st -Y, r21\n\
st X, r26\n\
st X+, r0\n\
st -X, r4\n\
push r28\n\
com r14\n\
neg r19\n\
swap r24\n\
inc r29\n\
asr r2\n\
lsr r7\n\
ror r12\n\
dec r17\n\
bset 7\n\
bclr 7\n\
ret\n\
reti\n\
sleep\n\
break\n\
wdr\n\
lpm\n\
spm\n\
ijmp\n\
icall\n\
jmp 0x000034\n\
call 0x1259A7\n\
adiw r30, 0x17\n\
sbiw r24, 0x01\n\
cbi 0x01, 5\n\
sbic 0x06, 2\n\
sbi 0x0B, 7\n\
sbis 0x10, 4\n\
mul r1, r21\n\
in r28, 0x3D\n\
out 0x3F, r1\n\
rjmp -1\n\
rcall +0\n\
ldi r24, 0x08\n\
brbs 1, -64\n\
brbc 1, -5\n\
bld r29, 1\n\
bst r2, 6\n\
sbrc r7, 3\n\
sbrs r12, 0\n\
";

#[test]
fn writes_a_line_for_each_row(rt: HostRuntime) -> Result<(), Fail> {
    assert_eq!(rt; TEXTS.lines().count(), 86);
    for (&(word, next), expected) in ROWS.iter().zip(TEXTS.lines()) {
        let instr = decode(word, next).ok().ok_or("no instruction")?;
        let mut sink = MemSink::new(rt.alloc(), 32, Vec::new(rt.alloc()))?;
        assert_eq!(rt; text(&instr, &mut sink), Ok(()));
        assert_eq!(rt; sink.bytes(), expected.as_bytes(), "at {word}");
    }
    Ok(())
}

#[test]
fn leaves_a_prefix_where_the_sink_fails(rt: HostRuntime) -> Result<(), Fail> {
    let instr = decode(0x0C01, 0).ok().ok_or("no instruction")?;
    let mut sink = MemSink::new(rt.alloc(), 7, Vec::new(rt.alloc()))?;
    assert_eq!(rt; text(&instr, &mut sink), Err(WriteError::WriteFault));
    assert_eq!(rt; sink.bytes(), b"add r0,".as_slice());
    Ok(())
}

#[test]
fn refuses_what_is_no_instruction(rt: HostRuntime) {
    assert!(rt; matches!(decode(0xFFFF, 0), Err(DecodeFault::Illegal)));
    assert!(rt; matches!(decode(0x91AD, 0), Err(DecodeFault::Undefined)));
    assert!(rt; matches!(decode(0x91E5, 0), Err(DecodeFault::Undefined)));
    assert!(rt; matches!(decode(0x9598, 0), Ok(Instr::Bits(Bits::Break))));
}

/// Of all words, 1,766 fit no row and 26 are undefined, counted from the opcodes.
#[test]
fn encodes_every_word_that_it_decodes(rt: HostRuntime) {
    let mut illegal = 0u32;
    let mut undefined = 0u32;
    for place in 0..65536u32 {
        let word = place as u16;
        match decode(word, 0x1234) {
            Ok(instr) => {
                let next = if two_words(word) {
                    Some(0x1234u16)
                } else {
                    None
                };
                assert_eq!(rt; encode(&instr), (word, next), "at {word}");
            }
            Err(DecodeFault::Illegal) => illegal = illegal.wrapping_add(1),
            Err(DecodeFault::Undefined) => undefined = undefined.wrapping_add(1),
        }
    }
    assert_eq!(rt; (illegal, undefined), (1766, 26));
}
