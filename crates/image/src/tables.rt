// Three tables over the 64 register bytes, indexed by offset from 0200h.

// The bits that Copy can change.
pub const WRITABLE: [u8; 64] = [
    0x7F, // 0200h
    0x7F, // 0201h
    0x7F, // 0202h
    0x3F, // 0203h
    0x9F, // 0204h
    0xFF, // 0205h
    0xFF, // 0206h
    0x3F, // 0207h
    0xFF, // 0208h
    0xFF, // 0209h
    0x00, // 020Ah
    0x00, // 020Bh
    0x00, // 020Ch
    0x00, // 020Dh
    0x00, // 020Eh
    0x00, // 020Fh
    0x03, // 0210h
    0x00, // 0211h
    0x03, // 0212h
    0x35, // 0213h
    0x00, // 0214h
    0x00, // 0215h
    0xFF, // 0216h
    0xFF, // 0217h
    0xFF, // 0218h
    0x00, // 0219h
    0x00, // 021Ah
    0x00, // 021Bh
    0x00, // 021Ch
    0x00, // 021Dh
    0x00, // 021Eh
    0x00, // 021Fh
    0x00, // 0220h
    0x00, // 0221h
    0x00, // 0222h
    0x00, // 0223h
    0x00, // 0224h
    0x00, // 0225h
    0x00, // 0226h
    0xFF, // 0227h
    0xFF, // 0228h
    0xFF, // 0229h
    0xFF, // 022Ah
    0xFF, // 022Bh
    0xFF, // 022Ch
    0xFF, // 022Dh
    0xFF, // 022Eh
    0xFF, // 022Fh
    0xFF, // 0230h
    0xFF, // 0231h
    0xFF, // 0232h
    0xFF, // 0233h
    0xFF, // 0234h
    0xFF, // 0235h
    0xFF, // 0236h
    0xFF, // 0237h
    0x00, // 0238h
    0x00, // 0239h
    0x00, // 023Ah
    0x00, // 023Bh
    0x00, // 023Ch
    0x00, // 023Dh
    0x00, // 023Eh
    0x00, // 023Fh
];

// The bits that Read Memory sends as 1 whatever the image holds.
pub const ALWAYS_ONE: [u8; 64] = [
    0x00, // 0200h
    0x00, // 0201h
    0x00, // 0202h
    0x00, // 0203h
    0x00, // 0204h
    0x00, // 0205h
    0x00, // 0206h
    0x00, // 0207h
    0x00, // 0208h
    0x00, // 0209h
    0x00, // 020Ah
    0x00, // 020Bh
    0x00, // 020Ch
    0x00, // 020Dh
    0x00, // 020Eh
    0x00, // 020Fh
    0x00, // 0210h
    0xFC, // 0211h
    0x00, // 0212h
    0xC0, // 0213h
    0x70, // 0214h
    0xC0, // 0215h
    0x00, // 0216h
    0x00, // 0217h
    0x00, // 0218h
    0x00, // 0219h
    0x00, // 021Ah
    0x00, // 021Bh
    0x00, // 021Ch
    0x00, // 021Dh
    0x00, // 021Eh
    0x00, // 021Fh
    0x00, // 0220h
    0x00, // 0221h
    0x00, // 0222h
    0x00, // 0223h
    0x00, // 0224h
    0x00, // 0225h
    0x00, // 0226h
    0x00, // 0227h
    0x00, // 0228h
    0x00, // 0229h
    0x00, // 022Ah
    0x00, // 022Bh
    0x00, // 022Ch
    0x00, // 022Dh
    0x00, // 022Eh
    0x00, // 022Fh
    0x00, // 0230h
    0x00, // 0231h
    0x00, // 0232h
    0x00, // 0233h
    0x00, // 0234h
    0x00, // 0235h
    0x00, // 0236h
    0x00, // 0237h
    0x00, // 0238h
    0x00, // 0239h
    0x00, // 023Ah
    0x00, // 023Bh
    0x00, // 023Ch
    0x00, // 023Dh
    0x00, // 023Eh
    0x00, // 023Fh
];

// The bits that Read Memory sends as the image holds them: those that have a name and are no password. The code is the
// record's. An array beside the two, and no struct of three: document 01 asks for those two as they are.
pub const NAMED: [u8; 64] = [
    0x7F, // seconds 0200h
    0x7F, // minutes 0201h
    0x7F, // hours 0202h
    0x3F, // date 0203h
    0x9F, // month and CENT 0204h
    0xFF, // year 0205h
    0xFF, // rate, low byte 0206h
    0x3F, // rate, high byte 0207h
    0xFF, // low threshold 0208h
    0xFF, // high threshold 0209h
    0x00, // nothing at 020Ah
    0x00, // nothing at 020Bh
    0xE0, // latest reading, bits 2-0 020Ch
    0xFF, // latest reading, bits 10-3 020Dh
    0x00, // nothing at 020Eh
    0x00, // nothing at 020Fh
    0x03, // ETLA, ETHA 0210h
    0x00, // nothing at 0211h
    0x03, // EOSC, EHSS 0212h
    0x35, // ETL, TLFS, RO, SUTA 0213h
    0x83, // TLF, THF, BOR 0214h
    0x1A, // MIP, MEMCLR, WFTA 0215h
    0xFF, // delay 0216h
    0xFF, // delay 0217h
    0xFF, // delay 0218h
    0xFF, // stamp 0219h
    0xFF, // stamp 021Ah
    0xFF, // stamp 021Bh
    0xFF, // stamp 021Ch
    0xFF, // stamp 021Dh
    0xFF, // stamp 021Eh
    0x00, // nothing at 021Fh
    0xFF, // mission samples 0220h
    0xFF, // mission samples 0221h
    0xFF, // mission samples 0222h
    0xFF, // device samples 0223h
    0xFF, // device samples 0224h
    0xFF, // device samples 0225h
    0x00, // the code 0226h
    0xFF, // password control 0227h
    0x00, // read password 0228h
    0x00, // read password 0229h
    0x00, // read password 022Ah
    0x00, // read password 022Bh
    0x00, // read password 022Ch
    0x00, // read password 022Dh
    0x00, // read password 022Eh
    0x00, // read password 022Fh
    0x00, // full password 0230h
    0x00, // full password 0231h
    0x00, // full password 0232h
    0x00, // full password 0233h
    0x00, // full password 0234h
    0x00, // full password 0235h
    0x00, // full password 0236h
    0x00, // full password 0237h
    0x00, // nothing at 0238h
    0x00, // nothing at 0239h
    0x00, // nothing at 023Ah
    0x00, // nothing at 023Bh
    0x00, // nothing at 023Ch
    0x00, // nothing at 023Dh
    0x00, // nothing at 023Eh
    0x00, // nothing at 023Fh
];
