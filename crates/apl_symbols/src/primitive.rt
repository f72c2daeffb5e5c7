//! Primitive functions.
ghost use Rattle.std.specs.Prelude.{◌≡◌, true};
ghost use Rattle.apl_charset.specs.Set.{is_member};
ghost use Rattle.apl_symbols.specs.Primitives.{is_scalar, operator_of};
ghost use Rattle.apl_symbols.specs.Glyphs.{primitive_glyph, primitive_of};

use apl_charset::Ch;

/// A primitive function, by its glyph's name.
#[derive(Clone, Copy, PartialEq, Eq, Hash, Debug)]
pub enum Primitive {
    /// `+`
    Plus,
    /// `-`
    Minus,
    /// `×`
    Times,
    /// `÷`
    Divide,
    /// `*`
    Star,
    /// `⌈`
    Upstile,
    /// `⌊`
    Downstile,
    /// `|`
    Stile,
    /// `~`
    Tilde,
    /// `!`
    Bang,
    /// `<`
    Less,
    /// `≤`
    NotGreater,
    /// `=`
    Equal,
    /// `≥`
    NotLess,
    /// `>`
    Greater,
    /// `≠`
    NotEqual,
    /// `∧`
    And,
    /// `∨`
    Or,
    /// `⍲`
    Nand,
    /// `⍱`
    Nor,
    /// `⍴`
    Rho,
    /// `⍳`
    Iota,
    /// `,`
    Comma,
    /// `⌽`
    CircleStile,
    /// `⊖`
    CircleBar,
    /// `⍉`
    CircleSlope,
    /// `↑`
    UpArrow,
    /// `↓`
    DownArrow,
    /// `/`
    Slash,
    /// `⌿`
    SlashBar,
    /// `\`
    Slope,
    /// `⍀`
    SlopeBar,
    /// `∊`
    Epsilon,
    /// `⍋`
    GradeUp,
    /// `⍒`
    GradeDown,
    /// `⊥`
    UpTack,
    /// `⊤`
    DownTack,
    /// `⍕`
    Format,
    /// `⍎`
    Execute,
}

/// A symbol that is an operator where a function stands directly before it.
#[derive(Clone, Copy, PartialEq, Eq, Hash, Debug)]
pub enum Operator {
    /// `/`, reduction along the last axis
    Slash,
    /// `⌿`, reduction along the first axis
    SlashBar,
    /// `\`, scan along the last axis
    Slope,
    /// `⍀`, scan along the first axis
    SlopeBar,
}

impl Primitive {
    /// Whether its dyadic function goes item by item, so that an operator takes it:
    /// `+ - × ÷ * ⌈ ⌊ | < ≤ = ≥ > ≠ ∧ ∨ ⍲ ⍱`.
    pub fn is_scalar(self) -> bool
        ensures { result ≡ is_scalar self }
    {
        matches!(
            self,
            Primitive::Plus
                | Primitive::Minus
                | Primitive::Times
                | Primitive::Divide
                | Primitive::Star
                | Primitive::Upstile
                | Primitive::Downstile
                | Primitive::Stile
                | Primitive::Less
                | Primitive::NotGreater
                | Primitive::Equal
                | Primitive::NotLess
                | Primitive::Greater
                | Primitive::NotEqual
                | Primitive::And
                | Primitive::Or
                | Primitive::Nand
                | Primitive::Nor
        )
    }

    /// The operator that it is directly after a function.
    pub fn operator(self) -> Option<Operator>
        ensures { result ≡ operator_of self }
    {
        match self {
            Primitive::Slash => Some(Operator::Slash),
            Primitive::SlashBar => Some(Operator::SlashBar),
            Primitive::Slope => Some(Operator::Slope),
            Primitive::SlopeBar => Some(Operator::SlopeBar),
            _ => None,
        }
    }

    /// The primitive function that a character writes, if it does.
    #[tactic(auto, unfolding(crate::specs::Glyphs::primitive_of))]
    pub fn new(c: Ch) -> Option<Primitive>
        ensures { result ≡ primitive_of c }
    {
        match c.code() {
            '+' => Some(Primitive::Plus),
            '-' => Some(Primitive::Minus),
            '×' => Some(Primitive::Times),
            '÷' => Some(Primitive::Divide),
            '*' => Some(Primitive::Star),
            '⌈' => Some(Primitive::Upstile),
            '⌊' => Some(Primitive::Downstile),
            '|' => Some(Primitive::Stile),
            '~' => Some(Primitive::Tilde),
            '!' => Some(Primitive::Bang),
            '<' => Some(Primitive::Less),
            '≤' => Some(Primitive::NotGreater),
            '=' => Some(Primitive::Equal),
            '≥' => Some(Primitive::NotLess),
            '>' => Some(Primitive::Greater),
            '≠' => Some(Primitive::NotEqual),
            '∧' => Some(Primitive::And),
            '∨' => Some(Primitive::Or),
            '⍲' => Some(Primitive::Nand),
            '⍱' => Some(Primitive::Nor),
            '⍴' => Some(Primitive::Rho),
            '⍳' => Some(Primitive::Iota),
            ',' => Some(Primitive::Comma),
            '⌽' => Some(Primitive::CircleStile),
            '⊖' => Some(Primitive::CircleBar),
            '⍉' => Some(Primitive::CircleSlope),
            '↑' => Some(Primitive::UpArrow),
            '↓' => Some(Primitive::DownArrow),
            '/' => Some(Primitive::Slash),
            '⌿' => Some(Primitive::SlashBar),
            '\\' => Some(Primitive::Slope),
            '⍀' => Some(Primitive::SlopeBar),
            '∊' => Some(Primitive::Epsilon),
            '⍋' => Some(Primitive::GradeUp),
            '⍒' => Some(Primitive::GradeDown),
            '⊥' => Some(Primitive::UpTack),
            '⊤' => Some(Primitive::DownTack),
            '⍕' => Some(Primitive::Format),
            '⍎' => Some(Primitive::Execute),
            _ => None,
        }
    }

    /// Its glyph's code point.
    #[tactic(auto, unfolding(apl_charset::specs::Set::is_member))]
    pub(crate) fn code(self) -> char
        ensures value { result ≡ primitive_glyph self }
        ensures in_set { is_member (primitive_glyph self) ≡ true }
    {
        match self {
            Primitive::Plus => '+',
            Primitive::Minus => '-',
            Primitive::Times => '×',
            Primitive::Divide => '÷',
            Primitive::Star => '*',
            Primitive::Upstile => '⌈',
            Primitive::Downstile => '⌊',
            Primitive::Stile => '|',
            Primitive::Tilde => '~',
            Primitive::Bang => '!',
            Primitive::Less => '<',
            Primitive::NotGreater => '≤',
            Primitive::Equal => '=',
            Primitive::NotLess => '≥',
            Primitive::Greater => '>',
            Primitive::NotEqual => '≠',
            Primitive::And => '∧',
            Primitive::Or => '∨',
            Primitive::Nand => '⍲',
            Primitive::Nor => '⍱',
            Primitive::Rho => '⍴',
            Primitive::Iota => '⍳',
            Primitive::Comma => ',',
            Primitive::CircleStile => '⌽',
            Primitive::CircleBar => '⊖',
            Primitive::CircleSlope => '⍉',
            Primitive::UpArrow => '↑',
            Primitive::DownArrow => '↓',
            Primitive::Slash => '/',
            Primitive::SlashBar => '⌿',
            Primitive::Slope => '\\',
            Primitive::SlopeBar => '⍀',
            Primitive::Epsilon => '∊',
            Primitive::GradeUp => '⍋',
            Primitive::GradeDown => '⍒',
            Primitive::UpTack => '⊥',
            Primitive::DownTack => '⊤',
            Primitive::Format => '⍕',
            Primitive::Execute => '⍎',
        }
    }
}
