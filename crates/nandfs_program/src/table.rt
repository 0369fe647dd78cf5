// The subcommands as a table.

/// A word of a subcommand: its name, what help says of it, and what else it needs.
#[derive(Clone, Copy)]
pub(crate) enum Word {
    /// A word that has to be there.
    Needed(&'static str, &'static str),
    /// A word that may be left out.
    Optional(&'static str, &'static str),
    /// `--name`.
    Flag(&'static str, &'static str),
    /// `--name`, or a letter for short.
    Letter(&'static str, char, &'static str),
    /// `--name N`, with the number where it is left out.
    Number(&'static str, &'static str, &'static str),
    /// `--name N`, which may be left out.
    Chosen(&'static str, &'static str),
    /// `--name MICROSECONDS`, with the time where it is left out.
    Time(&'static str, &'static str, &'static str),
    /// `--name FILE`, which may be left out.
    File(&'static str, &'static str),
    /// A number that has to be there.
    Place(&'static str, &'static str),
    /// A number that may be left out.
    MaybePlace(&'static str, &'static str),
}

/// A subcommand: its name, what it does, its words, and an example.
#[derive(Clone, Copy)]
pub(crate) struct Subcommand {
    pub(crate) name: &'static str,
    pub(crate) about: &'static str,
    pub(crate) words: &'static [Word],
    pub(crate) example: &'static str,
}

const IMAGE: Word = Word::Needed("IMAGE", "The image file");

const PATH: Word = Word::Needed("PATH", "The path in the volume");

const FOLDER: Word = Word::Needed("FOLDER", "The folder of the host");

const FILE: Word = Word::Needed("FILE", "The file of the host");

const OLD: Word = Word::Needed("OLD", "The path in the volume");

const NEW: Word = Word::Needed("NEW", "The new path in the volume");

const JSON: Word = Word::Flag(
    "json",
    "JSON; a path that is no UTF-8 has escapes, and its field `escaped` is true",
);

const NUMBERS_JSON: Word = Word::Flag("json", "JSON");

const DATA: Word = Word::Number(
    "data",
    "2048",
    "Bytes of data in a page: 512, 1024, 2048 or 4096",
);

const PAGES: Word = Word::Number("pages", "64", "Pages in a block: 32, 64, 128 or 256");

const BLOCKS: Word = Word::Number("blocks", "64", "Blocks: 5 to 4096");

const RESERVE: Word = Word::Number(
    "reserve",
    "2",
    "Blocks that may go bad, at most four less than there are",
);

/// The subcommands in the order of the help.
pub(crate) const SUBCOMMANDS: &[Subcommand] = &[
    Subcommand {
        name: "mkfs",
        about: "Makes a new image with an empty volume. A file that is there is replaced when all is done",
        words: &[IMAGE, DATA, PAGES, BLOCKS, RESERVE],
        example: "Example: nandfs mkfs flash.img --blocks 128 --reserve 4",
    },
    Subcommand {
        name: "pack",
        about: "Makes a new image of a folder: all files, directories, hard links and times of change. A file that is there is replaced when all is done",
        words: &[
            FOLDER,
            IMAGE,
            DATA,
            PAGES,
            BLOCKS,
            RESERVE,
            Word::Flag(
                "size-from-content",
                "The least number of blocks that holds the folder with 20 percent to spare",
            ),
            Word::Flag(
                "skip-others",
                "Leaves out what no volume can have, as symbolic links and devices",
            ),
        ],
        example: "Example: nandfs pack --size-from-content photos flash.img",
    },
    Subcommand {
        name: "unpack",
        about: "Writes all that is in an image into a folder that is new or empty",
        words: &[
            IMAGE,
            FOLDER,
            Word::Flag(
                "salvage",
                "What can be read of a damaged volume, with zeros in place of lost bytes, and a list of what is lost. Status 3 where something is",
            ),
        ],
        example: "Example: nandfs unpack flash.img copy",
    },
    Subcommand {
        name: "ls",
        about: "Lists names: with -l the kind, links, bytes and seconds of the last change of each",
        words: &[
            IMAGE,
            Word::Optional("PATH", "The path in the volume, / where it is left out"),
            Word::Letter(
                "long",
                'l',
                "A line for each, with its kind, links, bytes and seconds",
            ),
            Word::Letter("recursive", 'R', "All directories below, too"),
            JSON,
        ],
        example: "Example: nandfs ls -l -R flash.img /etc",
    },
    Subcommand {
        name: "tree",
        about: "Shows all names",
        words: &[IMAGE],
        example: "Example: nandfs tree flash.img",
    },
    Subcommand {
        name: "cat",
        about: "Writes the bytes of a file to standard output, as they are",
        words: &[IMAGE, PATH],
        example: "Example: nandfs cat flash.img /boots",
    },
    Subcommand {
        name: "stat",
        about: "Reports the kind, number, links, bytes and seconds of the last change",
        words: &[IMAGE, PATH, JSON],
        example: "Example: nandfs stat --json flash.img /boots",
    },
    Subcommand {
        name: "df",
        about: "Reports the room of the volume, in use and free, and its blocks: erased, bad, reserved",
        words: &[IMAGE, NUMBERS_JSON],
        example: "Example: nandfs df flash.img",
    },
    Subcommand {
        name: "map",
        about: "Draws what each page of the device is: a line for each block, or an SVG",
        words: &[
            IMAGE,
            Word::Optional("PATH", "A path in the volume, whose pages are marked"),
            Word::File("svg", "Draws an SVG in this file"),
            Word::Chosen("object", "The number of an object, whose pages are marked"),
            NUMBERS_JSON,
        ],
        example: "Example: nandfs map flash.img /boots --svg flash.svg",
    },
    Subcommand {
        name: "dump",
        about: "Shows the bytes of a page with its tag, or the tags of all pages of a block",
        words: &[
            IMAGE,
            Word::Place("BLOCK", "The number of the block, from 0 on"),
            Word::MaybePlace("PAGE", "The number of the page in the block, from 0 on"),
        ],
        example: "Example: nandfs dump flash.img 3 0",
    },
    Subcommand {
        name: "check",
        about: "Mounts the volume without a change of the image, and reports its room, or where it is damaged, and what the pages of the device are. Status 3 where there is no volume",
        words: &[
            IMAGE,
            Word::Flag("verbose", "The numbers of the blocks that are bad, too"),
            NUMBERS_JSON,
        ],
        example: "Example: nandfs check flash.img",
    },
    Subcommand {
        name: "bench",
        about: "Issues lines of a shell, from standard input, of a fresh volume in memory, and reports the calls of its device, their time and the erases of each block. A line `mark` ends a part; lines from `repeat N` to `end` are asked N times, with the number of the turn in place of each #",
        words: &[
            DATA,
            PAGES,
            BLOCKS,
            RESERVE,
            Word::Time("read-us", "75", "Time of a read of a page"),
            Word::Time("tag-us", "26.6", "Time of a read of a tag alone"),
            Word::Time("program-us", "250", "Time of a program, and of a mark"),
            Word::Time("erase-us", "1500", "Time of an erase"),
            Word::Flag("time", "The time of the processor, too"),
            Word::File("svg", "Draws the erases of each block in this file, too"),
            NUMBERS_JSON,
        ],
        example: "Example: nandfs bench --blocks 1024 --reserve 20 < lines.txt",
    },
    Subcommand {
        name: "get",
        about: "Writes a file of the volume to one of the host",
        words: &[IMAGE, PATH, FILE],
        example: "Example: nandfs get flash.img /boots boots.txt",
    },
    Subcommand {
        name: "put",
        about: "Writes a file of the host into the volume, in place of one that has the path. Where there is no room the old one stays",
        words: &[FILE, IMAGE, PATH],
        example: "Example: nandfs put boots.txt flash.img /boots",
    },
    Subcommand {
        name: "mkdir",
        about: "Makes a directory",
        words: &[IMAGE, PATH],
        example: "Example: nandfs mkdir flash.img /old",
    },
    Subcommand {
        name: "rm",
        about: "Removes a file, or a directory without names",
        words: &[
            IMAGE,
            PATH,
            Word::Letter("recursive", 'r', "With all that is below it"),
        ],
        example: "Example: nandfs rm -r flash.img /old",
    },
    Subcommand {
        name: "mv",
        about: "Gives a file or a directory another path, and replaces a file that has it",
        words: &[IMAGE, OLD, NEW],
        example: "Example: nandfs mv flash.img /boots /old/boots",
    },
    Subcommand {
        name: "ln",
        about: "Gives a file a further name",
        words: &[IMAGE, OLD, NEW],
        example: "Example: nandfs ln flash.img /boots /starts",
    },
];
