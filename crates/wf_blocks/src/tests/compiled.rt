//! Methods that `javac --release 8` compiled, with the frames that `javap -v` prints of their StackMapTable. A slot
//! is `I`, `A`, `L` or `R`, or `-` where the frame says nothing of it.

/// A method by its descriptor, the limits of its stack and its locals, its code and its table, with the slots at
/// frames: a place, the locals and the stack.
pub type Compiled = (
    &'static [u8],
    u16,
    u16,
    &'static [u8],
    &'static [(u16, u16, u16)],
    &'static [(u16, &'static [u8], &'static [u8])],
);

pub const METHODS: &[Compiled] = &[
    // sum
    (
        b"(I)I",
        2,
        3,
        b"\x03\x3c\x03\x3d\x1c\x1a\xa2\x00\x0d\x1b\x1c\x60\x3c\x84\x02\x01\xa7\xff\xf4\x1b\xac",
        &[],
        &[(4, b"III", b""), (19, b"II", b"")],
    ),
    // fact
    (
        b"(I)J",
        4,
        3,
        b"\x0a\x40\x1a\x04\xa4\x00\x0e\x1f\x1a\x85\x69\x40\x84\x00\xff\xa7\xff\xf3\x1f\xad",
        &[],
        &[(2, b"ILR", b""), (18, b"ILR", b"")],
    ),
    // sw
    (
        b"(I)I",
        1,
        1,
        b"\x1a\xaa\x00\x00\x00\x00\x00\x27\x00\x00\x00\x01\x00\x00\x00\x03\x00\x00\x00\x1b\x00\x00\x00\x1e\x00\x00\x00\x24\x10\x0a\xac\x10\x07\x3b\xa7\x00\x09\x10\x09\x3b\x84\x00\x01\x1a\xac",
        &[],
        &[
            (28, b"I", b""),
            (31, b"I", b""),
            (37, b"I", b""),
            (40, b"I", b""),
            (43, b"I", b""),
        ],
    ),
    // look
    (
        b"(I)I",
        1,
        2,
        b"\x1a\xab\x00\x00\x00\x00\x00\x32\x00\x00\x00\x03\xff\xff\xfc\x18\x00\x00\x00\x23\x00\x00\x00\x07\x00\x00\x00\x28\x00\x01\x86\xa0\x00\x00\x00\x2d\x04\x3c\xa7\x00\x0f\x05\x3c\xa7\x00\x0a\x06\x3c\xa7\x00\x05\x07\x3c\x1b\xac",
        &[],
        &[
            (36, b"I", b""),
            (41, b"I", b""),
            (46, b"I", b""),
            (51, b"I", b""),
            (53, b"II", b""),
        ],
    ),
    // fin
    (
        b"([II)I",
        3,
        4,
        b"\x03\x3d\x2a\x1b\x2e\x3d\x84\x02\x01\x2a\x03\x1c\x4f\xa7\x00\x0d\x4e\x84\x02\x01\x2a\x03\x1c\x4f\x2d\xbf\x1c\xac",
        &[(2, 6, 16)],
        &[(16, b"AII", b"A"), (26, b"AII", b"")],
    ),
    // nested
    (
        b"([I)I",
        3,
        6,
        b"\x03\x3c\x03\x3d\x1c\x2a\xbe\xa2\x00\x3f\x1b\x2a\x1c\x2e\x1c\x6c\x60\x3c\x1b\x2a\x1b\x2e\x64\x3c\x84\x01\x01\xa7\x00\x09\x4e\x84\x01\x01\x2d\xbf\xa7\x00\x1c\x3a\x04\x1b\x2a\x1b\x2e\x64\x3c\x84\x01\x01\xa7\x00\x0b\x3a\x05\x84\x01\x01\x19\x05\xbf\x19\x04\xbf\x84\x02\x01\xa7\xff\xc1\x1b\xac",
        &[
            (18, 24, 30),
            (10, 18, 39),
            (41, 47, 53),
            (53, 55, 53),
            (39, 41, 39),
        ],
        &[
            (4, b"AII", b""),
            (30, b"AII", b"A"),
            (36, b"AII", b""),
            (39, b"AII", b"A"),
            (53, b"AII-A", b"A"),
            (61, b"AII-A", b""),
            (64, b"AII", b""),
            (70, b"AI", b""),
        ],
    ),
    // mix
    (
        b"(JIJ)J",
        5,
        5,
        b"\x1c\x9e\x00\x0c\x1e\x21\x7f\x1c\x85\x61\xa7\x00\x0a\x1e\x1c\x7d\x21\x05\x79\x65\xad",
        &[],
        &[(13, b"LRILR", b""), (20, b"LRILR", b"LR")],
    ),
    // cmp
    (
        b"(JJ)I",
        4,
        4,
        b"\x1e\x20\x94\x9c\x00\x05\x02\xac\x1e\x20\x94\x9a\x00\x05\x03\xac\x04\xac",
        &[],
        &[(8, b"LRLR", b""), (16, b"LRLR", b"")],
    ),
    // nul
    (
        b"(Ljava/lang/Object;Ljava/lang/Object;)Z",
        2,
        2,
        b"\x2a\xc6\x00\x0c\x2b\x2a\xa5\x00\x0b\x2b\xc6\x00\x07\x04\xa7\x00\x04\x03\xac",
        &[],
        &[(13, b"AA", b""), (17, b"AA", b""), (18, b"AA", b"I")],
    ),
    // arr
    (
        b"([[I)I",
        2,
        10,
        b"\x03\x3c\x2a\x4d\x2c\xbe\x3e\x03\x36\x04\x15\x04\x1d\xa2\x00\x34\x2c\x15\x04\x32\x3a\x05\x19\x05\x3a\x06\x19\x06\xbe\x36\x07\x03\x36\x08\x15\x08\x15\x07\xa2\x00\x15\x19\x06\x15\x08\x2e\x36\x09\x1b\x15\x09\x60\x3c\x84\x08\x01\xa7\xff\xea\x84\x04\x01\xa7\xff\xcc\x1b\xac",
        &[],
        &[
            (10, b"AIAII", b""),
            (34, b"AIAIIAAII", b""),
            (59, b"AIAII", b""),
            (65, b"AI", b""),
        ],
    ),
    // fill
    (
        b"([JJ)V",
        8,
        4,
        b"\x2a\xbe\x04\x64\x3e\x1d\x9b\x00\x11\x2a\x1d\x1f\x5c\x0a\x61\x40\x50\x84\x03\xff\xa7\xff\xf1\xb1",
        &[],
        &[(5, b"ALRI", b""), (23, b"ALR", b"")],
    ),
    // gcd
    (
        b"(II)I",
        2,
        3,
        b"\x1b\x99\x00\x0e\x1a\x1b\x70\x3d\x1b\x3b\x1c\x3c\xa7\xff\xf4\x1a\xac",
        &[],
        &[(0, b"II", b""), (15, b"II", b"")],
    ),
    // bits
    (
        b"(J)I",
        5,
        3,
        b"\x03\x3d\x1c\x1e\x0a\x7f\x88\x60\x3d\x1e\x04\x7d\x3f\x1e\x09\x94\x9a\xff\xf2\x1c\xac",
        &[],
        &[(2, b"LRI", b"")],
    ),
    // brk
    (
        b"(I)I",
        2,
        4,
        b"\x03\x3c\x03\x3d\x1c\x1a\xa2\x00\x2e\x03\x3e\x1d\x1c\xa2\x00\x21\x1c\x1d\x68\x10\x07\xa0\x00\x06\xa7\x00\x1c\x1c\x1d\x82\x06\xa0\x00\x06\xa7\x00\x0c\x84\x01\x01\x84\x03\x01\xa7\xff\xe0\x84\x02\x01\xa7\xff\xd3\x1b\xac",
        &[],
        &[
            (4, b"III", b""),
            (11, b"IIII", b""),
            (27, b"IIII", b""),
            (37, b"IIII", b""),
            (46, b"III", b""),
            (52, b"II", b""),
        ],
    ),
    // grow
    (
        b"([II)[I",
        4,
        4,
        b"\x1b\xbc\x0a\x4d\x03\x3e\x1d\x2a\xbe\xa2\x00\x14\x1d\x1b\xa2\x00\x0f\x2c\x1d\x2a\x1d\x2e\x4f\x84\x03\x01\xa7\xff\xec\x2c\xb0",
        &[],
        &[(6, b"AIAI", b""), (29, b"AIAI", b"")],
    ),
    // tern
    (
        b"(ZZJ)J",
        4,
        4,
        b"\x1a\x99\x00\x10\x1b\x99\x00\x07\x20\xa7\x00\x13\x20\x75\xa7\x00\x0e\x1b\x99\x00\x09\x20\x0a\x7f\xa7\x00\x04\x09\xad",
        &[],
        &[
            (12, b"IILR", b""),
            (17, b"IILR", b""),
            (27, b"IILR", b""),
            (28, b"IILR", b"LR"),
        ],
    ),
    // up
    (
        b"(C)C",
        2,
        1,
        b"\x1a\x10\x61\xa1\x00\x11\x1a\x10\x7a\xa3\x00\x0b\x1a\x10\x20\x64\x92\xa7\x00\x04\x1a\xac",
        &[],
        &[(20, b"I", b""), (21, b"I", b"I")],
    ),
    // post
    (
        b"([II)I",
        6,
        2,
        b"\x2a\x1b\x84\x01\x01\x2e\x2a\x1b\x5c\x2e\x5b\x04\x60\x4f\x60\x2a\x1b\x5c\x2e\x04\x64\x5b\x4f\x64\xac",
        &[],
        &[],
    ),
    // lpost
    (
        b"([JI)J",
        12,
        2,
        b"\x2a\x1b\x84\x01\x01\x5c\x2f\x2a\x1b\x5c\x2f\x5e\x0a\x61\x50\x2a\x1b\x5c\x2f\x0a\x65\x5e\x50\x65\x61\x5e\x50\xad",
        &[],
        &[],
    ),
    // thr
    (
        b"(Ljava/lang/RuntimeException;I)V",
        2,
        2,
        b"\x1b\x06\xa4\x00\x05\x2a\xbf\xb1",
        &[],
        &[(7, b"AI", b"")],
    ),
    // sync
    (
        b"(Ljava/lang/Object;I)I",
        2,
        4,
        b"\x2a\x59\x4d\xc2\x1b\x9e\x00\x07\x1b\x2c\xc3\xac\x1b\x74\x3c\x2c\xc3\xa7\x00\x08\x4e\x2c\xc3\x2d\xbf\x1b\x04\x60\xac",
        &[(4, 11, 20), (12, 17, 20), (20, 23, 20)],
        &[(12, b"AIA", b""), (20, b"AIA", b"A"), (25, b"AI", b"")],
    ),
    // two
    (
        b"(I)J",
        4,
        8,
        b"\x09\x40\x0a\x42\x03\x36\x05\x15\x05\x1a\xa2\x00\x13\x1f\x21\x61\x37\x06\x21\x40\x16\x06\x42\x84\x05\x01\xa7\xff\xed\x1f\xad",
        &[],
        &[(7, b"ILRLRI", b""), (29, b"ILRLR", b"")],
    ),
    // sh
    (
        b"(I)S",
        2,
        3,
        b"\x1a\x91\x3c\x1a\x06\x7a\x93\x3d\x1b\x1c\x68\x93\xac",
        &[],
        &[],
    ),
    // many
    (
        b"(IJ[I[JI)I",
        4,
        8,
        b"\x1a\x15\x05\xa0\x00\x11\x1f\x37\x06\x19\x04\x1a\x16\x06\x50\x2d\x15\x05\x2e\xac\x1a\x36\x06\x2d\x15\x06\x15\x05\x4f\x1f\x88\xac",
        &[],
        &[(20, b"ILRAAI", b"")],
    ),
    // swfall
    (
        b"(IJ)I",
        3,
        6,
        b"\x03\x3e\x1a\xaa\x00\x00\x00\x3a\x00\x00\x00\x00\x00\x00\x00\x05\x00\x00\x00\x25\x00\x00\x00\x28\x00\x00\x00\x2b\x00\x00\x00\x3a\x00\x00\x00\x3a\x00\x00\x00\x37\x84\x03\x01\x84\x03\x02\x1f\x37\x04\x1d\x16\x04\x88\x60\x3e\xa7\x00\x06\x10\x09\x3e\x1d\xac",
        &[],
        &[
            (40, b"ILRI", b""),
            (43, b"ILRI", b""),
            (46, b"ILRI", b""),
            (58, b"ILRI", b""),
            (61, b"ILRI", b""),
        ],
    ),
    // pick
    (
        b"(Ljava/lang/Object;Ljava/lang/Object;I)Ljava/lang/Object;",
        2,
        4,
        b"\x01\x4e\x1c\x9e\x00\x15\x1c\x05\x70\x9a\x00\x07\x2a\xa7\x00\x04\x2b\x4e\x84\x02\xff\xa7\xff\xed\x2d\xb0",
        &[],
        &[
            (2, b"AAIA", b""),
            (16, b"AAIA", b""),
            (17, b"AAIA", b"A"),
            (24, b"AAIA", b""),
        ],
    ),
    // looptry
    (
        b"([II)I",
        3,
        4,
        b"\x03\x3d\x1c\x1b\xa4\x00\x09\x84\x02\x01\xa7\x00\x18\x1c\x2a\x1c\x2e\x60\x3d\x84\x02\x01\xa7\x00\x09\x4e\x84\x02\x01\x2d\xbf\xa7\xff\xe3\x1c\xac",
        &[(2, 7, 25), (13, 19, 25)],
        &[
            (2, b"AII", b""),
            (13, b"AII", b""),
            (25, b"AII", b"A"),
            (31, b"AII", b""),
            (34, b"AII", b""),
        ],
    ),
];
