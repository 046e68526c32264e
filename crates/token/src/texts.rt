// The fixed texts that tokens and nodes carry by number: a node's record in the lent store holds numbers only, and no reference.
ghost use Rattle.std.specs.Prelude.{◌≡◌};
ghost use Rattle.text.specs.Text.{bytes};
ghost use Rattle.token.specs.Texts.{text_of, text_in, width_of};

use text::Dialect;

// The fixed text of a number. One that has none gives the empty text, as in the definition, here and in the next function.
pub fn text_of(n: u32) -> &'static [u8]
    ensures { result.now ≡ bytes (text_of n) }
{
    match n {
        0 => b"",
        1 => b"(",
        2 => b")",
        3 => b"[",
        4 => b"]",
        5 => b"|",
        6 => b":=",
        7 => b"&lang;",
        8 => b"&rang;",
        9 => b"{",
        10 => b"}",
        11 => b"\xe2\x8c\x88", // ⌈
        12 => b"\xe2\x8c\x89", // ⌉
        13 => b"\xe2\x8c\x8a", // ⌊
        14 => b"\xe2\x8c\x8b", // ⌋
        15 => b"\xe2\xa6\x97", // ⦗
        16 => b"\xe2\xa6\x98", // ⦘
        17 => b"\xe2\x9f\xa6", // ⟦
        18 => b"\xe2\x9f\xa7", // ⟧
        19 => b"lim",
        20 => b"lim inf",
        21 => b"lim sup",
        22 => b"min",
        23 => b"max",
        24 => b"inf",
        25 => b"sup",
        26 => b"1.2em",
        27 => b"1.623em",
        28 => b"2.047em",
        29 => b"2.470em",
        30 => b"sin",
        31 => b"cos",
        32 => b"tan",
        33 => b"csc",
        34 => b"sec",
        35 => b"cot",
        36 => b"arcsin",
        37 => b"arccos",
        38 => b"arctan",
        39 => b"sinh",
        40 => b"cosh",
        41 => b"tanh",
        42 => b"coth",
        43 => b"exp",
        44 => b"ln",
        45 => b"log",
        46 => b"erf",
        47 => b"erfc",
        48 => b"arg",
        49 => b"ker",
        50 => b"dim",
        51 => b"det",
        52 => b"\xe2\x84\x98", // ℘
        53 => b"\xe2\x88\xa5", // ∥
        54 => b"\xe2\x9f\xa8", // ⟨
        55 => b"\xe2\x9f\xa9", // ⟩
        _ => b"",
    }
}

// What is printed for the width of a number.
pub fn width_of(n: u32) -> &'static [u8]
    ensures { result.now ≡ bytes (width_of n) }
{
    match n {
        0 => b"-0.16666667",
        1 => b"0.16666667",
        2 => b"0.22222222",
        3 => b"0.2777778",
        4 => b"1",
        5 => b"2",
        _ => b"",
    }
}

// The number of the text that a dialect has for a fixed text: the strict one has characters for the names of angle brackets.
pub fn text_in(dialect: Dialect, n: u32) -> u32
    ensures { result ≡ text_in dialect n }
{
    match dialect {
        Dialect::Old => n,
        Dialect::Strict => match n {
            7 => 54,
            8 => 55,
            _ => n,
        },
    }
}
