//! A case for each alternative of the grammar. Comments, blanks, `const` and the quotes of strings are
//! gone, and declarations are in the order of the text.

use ctf_list::List;

/// A word of the text, or the bytes of a string with its escapes undone.
pub type Word = List<u8>;

/// Words with dots between them.
pub type Path = List<Word>;

/// The words that name a class, as `unsigned long`.
#[derive(Drop)]
pub struct Typename {
    pub words: List<Word>,
}

/// A constant with its sign.
#[derive(Clone, Copy)]
pub struct Number {
    pub is_negative: bool,
    pub magnitude: u64,
}

/// What is after the `=` of a setting.
#[derive(Drop)]
pub enum Value {
    /// `8`, `+8` or `-8`
    Number(Number),
    /// `"text"`
    Text(Word),
    /// `le` or `clock.monotonic.value`
    Name(Path),
}

/// `name = value;`
#[derive(Drop)]
pub struct Setting {
    pub name: Path,
    pub value: Value,
}

/// What is between the brackets of a declarator.
#[derive(Drop)]
pub enum Length {
    /// How many elements an array has.
    Constant(u64),
    /// The field that says how many elements a sequence has.
    Path(Path),
}

/// `name[length]..`
#[derive(Drop)]
pub struct Declarator {
    pub name: Word,
    pub lengths: List<Length>,
}

/// `first` or `first ... last`
#[derive(Clone, Copy)]
pub struct Span {
    pub first: Number,
    pub last: Option<Number>,
}

/// `name` or `name = span`
#[derive(Drop)]
pub struct Label {
    pub name: Word,
    pub span: Option<Span>,
}

/// What is after the `:` of an enumeration.
#[derive(Drop)]
pub enum Container {
    /// `integer { settings }`
    Integer(List<Setting>),
    /// A class by its name.
    Named(Typename),
}

/// A class by its name. Names of the four kinds are different names.
#[derive(Drop)]
pub enum Reference {
    /// `unsigned long`
    Plain(Typename),
    /// `struct name`
    Struct(Word),
    /// `variant name <tag>`
    Variant { name: Word, tag: Option<Path> },
    /// `enum name`
    Enum(Word),
}

/// A class as it is written.
#[cycle(tree)]
#[derive(Drop)]
pub enum Specifier {
    /// `integer { settings }`
    Integer(List<Setting>),
    /// `floating_point { settings }`
    FloatingPoint(List<Setting>),
    /// `string { settings }`, without settings where no braces are written.
    String(List<Setting>),
    /// A compound with a body, and the name that it declares where it has one.
    Compound {
        name: Option<Word>,
        compound: Compound,
    },
    /// A class by its name.
    Named(Reference),
}

/// The body of a compound, with what is beside it.
#[cycle(tree)]
#[derive(Drop)]
pub enum Compound {
    /// `struct { items } align(n)`, with the alignment in bits.
    Struct {
        items: List<Item>,
        align: Option<u64>,
    },
    /// `variant <tag> { items }`
    Variant {
        tag: Option<Path>,
        items: List<Item>,
    },
    /// `enum : container { labels }`
    Enum {
        container: Option<Container>,
        labels: List<Label>,
    },
}

/// What is in the body of a structure or a variant.
#[cycle(tree)]
#[derive(Drop)]
pub enum Item {
    /// `class declarator, ..;`
    Fields {
        class: Specifier,
        declarators: List<Declarator>,
    },
    /// A declaration of names for classes.
    Types(TypeDeclaration),
}

/// A declaration of one or more names for a class.
#[cycle(tree)]
#[derive(Drop)]
pub enum TypeDeclaration {
    /// `typealias class := name;`
    Alias {
        class: Specifier,
        name: Typename,
    },
    /// `typedef class declarator, ..;`
    Definition {
        class: Specifier,
        declarators: List<Declarator>,
    },
    /// A compound with a name and a body.
    Compound {
        name: Word,
        compound: Compound,
    },
}

/// What is in the braces of a trace, a stream or an event.
#[derive(Drop)]
pub enum BlockEntry {
    /// `name = value;`
    Setting(Setting),
    /// `name := class;`
    Class { name: Path, class: Specifier },
    /// A declaration of names for classes.
    Types(TypeDeclaration),
}

/// The word before the braces of a block with classes.
#[derive(Clone, Copy)]
pub enum BlockKind {
    Trace,
    Stream,
    Event,
}

/// The word before the braces of a block of settings.
#[derive(Clone, Copy)]
pub enum TableKind {
    Clock,
    Env,
    Callsite,
}

/// A block or a declaration of names, directly in the metadata.
#[derive(Drop)]
pub enum Declaration {
    /// A trace, a stream or an event.
    Block {
        kind: BlockKind,
        entries: List<BlockEntry>,
    },
    /// A clock, the environment or a call site.
    Table {
        kind: TableKind,
        settings: List<Setting>,
    },
    /// A declaration of names for classes.
    Types(TypeDeclaration),
}

/// A metadata text. The place of a declaration is its number in its list.
#[derive(Drop)]
pub struct Tree {
    pub declarations: List<Declaration>,
}
