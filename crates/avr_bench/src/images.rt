//! The images that are timed: words of flash by word address, with their assembler text.

/// Arithmetic over 64 bytes of SRAM, with a call each round; a byte is sent by the USART after 1,024 rounds.
///
/// ```text
/// at word 0000:
///     ldi r16, 0x08
///     sts 0xC1, r16
///     ldi r20, 1
///     ldi r21, 2
///     ldi r22, 3
///     ldi r23, 4
/// again:
///     ldi r28, 0x00
///     ldi r29, 0x04
/// outer:
///     ldi r26, 0x00
///     ldi r27, 0x01
///     ldi r24, 64
/// inner:
///     ld r18, X
///     add r20, r18
///     adc r21, r22
///     eor r22, r20
///     rol r23
///     mul r20, r21
///     add r22, r0
///     adc r23, r1
///     st X+, r23
///     sbiw r24, 1
///     brne inner
///     rcall mix
///     sbiw r28, 1
///     brne outer
///     mov r16, r20
///     rcall send
///     rjmp again
/// mix:
///     push r20
///     swap r21
///     com r22
///     lsr r23
///     ror r21
///     pop r20
///     ret
/// send:
///     lds r17, 0xC0
///     sbrs r17, 5
///     rjmp send
///     sts 0xC6, r16
///     ret
/// ```
pub const LOOP: &[(u16, &[u16])] = &[(
    0x0000,
    &[
        0xE008, 0x9300, 0x00C1, 0xE041, 0xE052, 0xE063, 0xE074, 0xE0C0, 0xE0D4, 0xE0A0, 0xE0B1,
        0xE480, 0x912C, 0x0F42, 0x1F56, 0x2764, 0x1F77, 0x9F45, 0x0D60, 0x1D71, 0x937D, 0x9701,
        0xF7A9, 0xD005, 0x9721, 0xF779, 0x2F04, 0xD008, 0xCFEA, 0x934F, 0x9552, 0x9560, 0x9576,
        0x9557, 0x914F, 0x9508, 0x9110, 0x00C0, 0xFF15, 0xCFFC, 0x9300, 0x00C6, 0x9508,
    ],
)];

/// CRC-32, bit by bit, of 256 bytes of SRAM, each of which then takes the low byte so far; a byte is sent after each pass.
///
/// ```text
/// at word 0000:
///     ldi r16, 0x08
///     sts 0xC1, r16
///     clr r20
///     ldi r26, 0x00
///     ldi r27, 0x01
/// fill:
///     st X+, r20
///     subi r20, 0xA7
///     cpi r27, 2
///     brne fill
/// again:
///     ldi r22, 0xFF
///     ldi r23, 0xFF
///     ldi r24, 0xFF
///     ldi r25, 0xFF
///     ldi r26, 0x00
///     ldi r27, 0x01
/// byte:
///     ld r18, X
///     eor r22, r18
///     ldi r19, 8
/// bit:
///     lsr r25
///     ror r24
///     ror r23
///     ror r22
///     brcc next
///     rcall poly
/// next:
///     dec r19
///     brne bit
///     st X+, r22
///     cpi r27, 2
///     brne byte
///     mov r16, r22
///     rcall send
///     rjmp again
/// poly:
///     push r18
///     ldi r18, 0x20
///     eor r22, r18
///     ldi r18, 0x83
///     eor r23, r18
///     ldi r18, 0xB8
///     eor r24, r18
///     ldi r18, 0xED
///     eor r25, r18
///     pop r18
///     ret
/// send:
///     lds r17, 0xC0
///     sbrs r17, 5
///     rjmp send
///     sts 0xC6, r16
///     ret
/// ```
pub const HASH: &[(u16, &[u16])] = &[(
    0x0000,
    &[
        0xE008, 0x9300, 0x00C1, 0x2744, 0xE0A0, 0xE0B1, 0x934D, 0x5A47, 0x30B2, 0xF7E1, 0xEF6F,
        0xEF7F, 0xEF8F, 0xEF9F, 0xE0A0, 0xE0B1, 0x912C, 0x2762, 0xE038, 0x9596, 0x9587, 0x9577,
        0x9567, 0xF408, 0xD008, 0x953A, 0xF7C1, 0x936D, 0x30B2, 0xF791, 0x2F06, 0xD00C, 0xCFE9,
        0x932F, 0xE220, 0x2762, 0xE823, 0x2772, 0xEB28, 0x2782, 0xEE2D, 0x2792, 0x912F, 0x9508,
        0x9110, 0x00C0, 0xFF15, 0xCFFC, 0x9300, 0x00C6, 0x9508,
    ],
)];

/// A tick of timer 0 each 16,000 cycles (1 kHz at 16 MHz), at each tenth of which five bytes go out by the USART's interrupt;
/// some work after each interrupt, and sleep between.
///
/// ```text
/// at word 0000:
///     jmp main
/// at word 001C:
///     jmp tick
/// at word 0026:
///     jmp empty
/// at word 0040:
/// main:
///     ldi r16, 0x02
///     out 0x24, r16
///     ldi r16, 249
///     out 0x27, r16
///     ldi r16, 0x02
///     sts 0x6E, r16
///     ldi r16, 0x03
///     out 0x25, r16
///     ldi r16, 0x08
///     sts 0xC1, r16
///     ldi r16, 0x01
///     out 0x33, r16
///     clr r20
///     clr r21
///     clr r10
///     sei
/// rest:
///     sleep
///     ldi r24, 0xA0
///     ldi r25, 0x0F
/// work:
///     ldi r26, 0x00
///     ldi r27, 0x02
///     ld r18, X
///     add r18, r24
///     adc r18, r25
///     st X, r18
///     sbiw r24, 1
///     brne work
///     rjmp rest
/// tick:
///     push r16
///     in r16, 0x3F
///     push r16
///     inc r20
///     cpi r20, 10
///     brne left
///     clr r20
///     ldi r21, 5
///     ldi r16, 0x28
///     sts 0xC1, r16
/// left:
///     pop r16
///     out 0x3F, r16
///     pop r16
///     reti
/// empty:
///     push r16
///     in r16, 0x3F
///     push r16
///     mov r16, r18
///     sts 0xC6, r16
///     dec r21
///     brne more
///     ldi r16, 0x08
///     sts 0xC1, r16
/// more:
///     pop r16
///     out 0x3F, r16
///     pop r16
///     reti
/// ```
pub const TICKS: &[(u16, &[u16])] = &[
    (0x0000, &[0x940C, 0x0040]),
    (0x001C, &[0x940C, 0x005E]),
    (0x0026, &[0x940C, 0x006D]),
    (
        0x0040,
        &[
            0xE002, 0xBD04, 0xEF09, 0xBD07, 0xE002, 0x9300, 0x006E, 0xE003, 0xBD05, 0xE008, 0x9300,
            0x00C1, 0xE001, 0xBF03, 0x2744, 0x2755, 0x24AA, 0x9478, 0x9588, 0xEA80, 0xE09F, 0xE0A0,
            0xE0B2, 0x912C, 0x0F28, 0x1F29, 0x932C, 0x9701, 0xF7C1, 0xCFF4, 0x930F, 0xB70F, 0x930F,
            0x9543, 0x304A, 0xF429, 0x2744, 0xE055, 0xE208, 0x9300, 0x00C1, 0x910F, 0xBF0F, 0x910F,
            0x9518, 0x930F, 0xB70F, 0x930F, 0x2F02, 0x9300, 0x00C6, 0x955A, 0xF419, 0xE008, 0x9300,
            0x00C1, 0x910F, 0xBF0F, 0x910F, 0x9518,
        ],
    ),
];
