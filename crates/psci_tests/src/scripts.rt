//! Scripts that are replayed, and the answers to them.

use psci_answers::Replayed;

/// One core enters and asks for the version.
pub const SCRIPT: &[u8] =
    b"board (2 2) exec 0x40000000-0x40100000 boot 0x40000000 starts 1000 lives 3\n\
      enter 0\ncall 0 0x84000000\n";

/// The script up to its second line, line feed and all.
pub const ENTRY: &[u8] =
    b"board (2 2) exec 0x40000000-0x40100000 boot 0x40000000 starts 1000 lives 3\n\
      enter 0\n";

/// A script whose last line has no line feed.
pub const CUT: &[u8] =
    b"board (2 2) exec 0x40000000-0x40100000 boot 0x40000000 starts 1000 lives 3\n\
      enter 0\ncall 0 0x8400";

/// The answers to the script.
pub const TEXT: &[u8] = b"1 enter 0x40000000 0x0\n2 return 65537\n";

/// The whole script was replayed.
pub const WHOLE: Replayed = Replayed {
    lines: 3,
    events: 2,
};

/// What is answered before any call, and a line with two numbers.
pub const FIRST: &[u8] =
    b"board (2 2) exec 0x40000000-0x40100000 boot 0x40000000 starts 1000 lives 3\n\
      deliver 0\n\
      take 0\n\
      wake 9\n\
      wake 0\n\
      reset 0\n\
      enter 0\n\
      deliver 0 0\n";

/// The answers to it.
pub const FIRST_TEXT: &[u8] =
    b"1 absent\n2 absent\n3 absent\n4 ignored\n5 started 2\n6 enter 0x40000000 0x0\n";

/// On a board of 256 cores five others are asked on, the last one among them.
pub const MESSAGES: &[u8] = b"board (16 16 16 16 16 16 16 16 16 16 16 16 16 16 16 16) \
      exec 0x40000000-0x40100000 boot 0x40000000 starts 1000 lives 3\n\
      enter 0\n\
      call 0 0xc4000003 0x1 0x40001000 7\n\
      call 0 0xc4000003 0x2 0x40001000 7\n\
      call 0 0xc4000003 0x3 0x40001000 7\n\
      call 0 0xc4000003 0x4 0x40001000 7\n\
      call 0 0xc4000003 0xf0f 0x40001000 7\n\
      call 0 0xc4000004 0xf0f 0\n";

/// The answers to it.
pub const MESSAGE_TEXT: &[u8] = b"1 enter 0x40000000 0x0\n\
      2 return 0 #0 start 1 life 1 number 0\n\
      3 return 0 #1 start 2 life 1 number 0\n\
      4 return 0 #2 start 3 life 1 number 0\n\
      5 return 0 #3 start 4 life 1 number 0\n\
      6 return 0 #4 start 255 life 1 number 0\n\
      7 return 2\n";
