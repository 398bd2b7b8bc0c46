// The bytes that keys and codes may hold, as a table.
const Y: bool = true;

const N: bool = false;

// Which bytes are plain: 0x21 to 0x7E but five.
pub(crate) static PLAIN: [bool; 256] = [
    N, // 0x00
    N, N, N, N, N, N, N, N, N, N, N, N, N, N, N, N, // 0x10
    N, N, N, N, N, N, N, N, N, N, N, N, N, N, N, N, // 0x20
    Y, Y, Y, Y, Y, N, // ampersand
    Y, Y, Y, Y, Y, Y, Y, Y, Y, Y, // 0x30
    Y, Y, Y, Y, Y, Y, Y, Y, Y, Y, Y, Y, Y, Y, Y, Y, // 0x40
    Y, Y, Y, Y, Y, Y, Y, Y, Y, Y, Y, Y, Y, Y, Y, Y, // 0x50
    Y, Y, Y, Y, Y, Y, Y, Y, Y, Y, Y, N, // backslash
    Y, N, // caret
    Y, Y, // 0x60
    Y, Y, Y, Y, Y, Y, Y, Y, Y, Y, Y, Y, Y, Y, Y, Y, // 0x70
    Y, Y, Y, Y, Y, Y, Y, Y, Y, Y, Y, N, // bar
    Y, N, // tilde
    N, N, // 0x80
    N, N, N, N, N, N, N, N, N, N, N, N, N, N, N, N, // 0x90
    N, N, N, N, N, N, N, N, N, N, N, N, N, N, N, N, // 0xA0
    N, N, N, N, N, N, N, N, N, N, N, N, N, N, N, N, // 0xB0
    N, N, N, N, N, N, N, N, N, N, N, N, N, N, N, N, // 0xC0
    N, N, N, N, N, N, N, N, N, N, N, N, N, N, N, N, // 0xD0
    N, N, N, N, N, N, N, N, N, N, N, N, N, N, N, N, // 0xE0
    N, N, N, N, N, N, N, N, N, N, N, N, N, N, N, N, // 0xF0
    N, N, N, N, N, N, N, N, N, N, N, N, N, N, N,
];
