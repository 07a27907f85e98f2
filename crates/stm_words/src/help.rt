// What `--help` says of each subcommand and each of its words.

pub const STMFLASH: &str = "Flashes STM32 chips through the bootloader in their ROM (ST AN3155)";

pub const INFO: &str = "Tells what the device is";

pub const READ: &str = "Reads the flash, or a part of it, into a file";

pub const CRC: &str =
    "Tells the CRC of the flash, or of a part of it, as the chip's own unit has it";

pub const WRITE: &str =
    "Writes an image: the pages that it touches are kept, erased and written; every other byte stays";

pub const VERIFY: &str = "Compares the flash with an image";

pub const ERASE: &str = "Erases pages, and keeps what they hold";

pub const UNDO: &str = "Undoes the newest writes and erases, also one that was stopped";

pub const GO: &str = "Lets the device leave the bootloader and run what stands at an address";

pub const PROTECT: &str = "Changes a protection; readout-unprotect erases the chip for good";

pub const LOG: &str = "Tells what a journal says; no device is used";

pub const LOG_CHECK: &str =
    "Reads all of it, every kept byte too, and tells the CRC of each kept page";

pub const KEEP: &str =
    "Lets what was written and erased stay for good: the journal is removed, or renamed to TO";

pub const SIM: &str = "Serves a simulated device on a Unix socket";

pub const TABLE: &str = "The chip table, a TOML file";

pub const DEVICE: &str = "The device: sim:ID:FILE, or the path of a Unix socket";

pub const JOURNAL: &str =
    "The journal of what was done; a missing file is an empty one, but not for log and keep";

pub const JOURNALS: &str =
    "In place of --journal: a folder, in which each board has UNIQUE.journal, by its unique id";

pub const WAIT: &str = "How long a reply may take, in milliseconds, 1 to 60000";

pub const BAUD: &str = "How many bits a second the line has, 1 to 4000000, where that is known";

pub const GIVE_UP: &str = "After how many seconds without an answer the line is given up; 0: never \
    [default: ten times --wait, 4 to 20; for undo 20]";

pub const PROGRESS: &str =
    "Tells each page in a line of its own on standard error, also where that is no terminal";

pub const QUIET: &str = "Shows nothing while a session runs";

pub const JSON: &str =
    "Tells what was done, and each fault, as one line of JSON on standard output";

pub const WATCH: &str =
    "Ends the session at the first reply that no device of the stated model could give";

pub const FRESH: &str = "The device was reset since the last session";

pub const NO_LOCK: &str =
    "Goes on where the file system has no locks; no other program may have the files then";

pub const TRUST_JOURNAL: &str =
    "Uses a journal, OUT or TO also where others have it, or may write it or its folder; an undo compares no CRC";

pub const RAW: &str = "Tells id, version and codes alone, also of a chip that the table hasn't";

pub const TO: &str = "A name for the journal, which isn't there yet";

pub const LAST: &str =
    "Gives up all but the newest N writes and erases, which can still be undone, 1 to 65535";

pub const BOARD: &str =
    "Refuses any board but the one whose unique id this is, or ends in these hexadecimal digits";

pub const NO_BOARD: &str = "Doesn't ask the device which board it is, nor how large its flash";

pub const STOP: &str = "Stops a simulated device after K steps";

pub const READ_RANGE: &str = "What to read: address[:length]; without it the whole flash";

pub const OUT: &str = "The file for the bytes";

pub const HEX: &str = "Writes Intel HEX, as it does where OUT ends in .hex";

pub const SKIP_BLANK: &str = "Leaves out of the HEX what is erased, in lines of 16 bytes";

pub const CRC_RANGE: &str = "What to sum up: address[:length], in whole words of 4 bytes";

pub const WRITE_KEEP: &str = "Lets what was written stay for good, as keep does, once all is done";

pub const WRITE_KEEP_TO: &str = "The same, and renames the journal to TO, which isn't there yet";

pub const WRITE_GO: &str =
    "Then lets the device run what stands at ADDRESS; needs --keep or --keep-to";

pub const AGAIN: &str =
    "Undoes a write whose line or protocol failed, and does it again, N times at the most";

pub const FORCE: &str = "Takes the file as raw bytes, also where it begins with a colon";

pub const CHECK: &str = "Verifies what was written, in the same session";

pub const IMAGE_RANGE: &str =
    "Where a raw image lies: address[:length]; without it, from the flash's first byte on";

pub const IMAGE: &str =
    "The files of images: HEX where the first byte is a colon, else raw; NAME@RANGE is -S of one alone";

pub const ALL: &str = "Erases every page";

pub const PAGE: &str = "The numbers of pages, counted from 0, or ranges of them, as 4-9";

pub const UNDO_CHECK: &str =
    "Reads each page again that was given back, in the same session, and compares it";

pub const RECOVER: &str =
    "First cuts off what a crash of the PC left at the journal's end, and keeps it beside";

pub const TO_CHANGE: &str =
    "In place of COUNT: up to the newest write or erase that changed something, that one too";

pub const COUNT: &str = "How many writes and erases, the newest first; 0, or without it: all";

pub const ADDRESS: &str = "Where to go on: 0x and hexadecimal digits, or a decimal number";

pub const YES: &str = "Doesn't ask on a terminal before readout-unprotect erases the chip";

pub const IN_SESSION: &str =
    "Takes the write protection off also where a write or an undo was stopped";

pub const KIND: &str = "Which protection, and how it is changed";

pub const ID: &str = "The chip's id: four hexadecimal digits";

pub const FLASH: &str =
    "The file that holds the flash; where the device stands is kept in FILE.line";

pub const UNIQUE: &str =
    "The unique id that the device gets, in hexadecimal digits; it is kept in FILE.board";

pub const SIZE: &str = "How many KiB of flash the device gets, 1 to 65534; kept in FILE.board too";

pub const PROTECTED: &str =
    "Pages that are write-protected, by their numbers or ranges of them, as 4-7; \
    it may be given several times";

pub const READOUT_PROTECTION: &str =
    "Lets Readout Protect take effect: what it forbids is refused until Readout Unprotect";

pub const SOCKET: &str = "The socket that is made, and removed at the end";

pub const MODE: &str = "Who may connect: the mode of the socket, 1 to 3 octal digits";

pub const CLIENTS: &str = "How many clients are served, one after the other, 1 to 1000000";
