/// The marks of the language (ISO C 6.4.6, without those that it has no use for).
#[derive(Clone, Copy, Debug, PartialEq, Eq)]
pub enum Punct {
    /// `{`
    OpenBrace,
    /// `}`
    CloseBrace,
    /// `(`
    OpenParen,
    /// `)`
    CloseParen,
    /// `[`
    OpenBracket,
    /// `]`
    CloseBracket,
    /// `;`
    Semicolon,
    /// `,`
    Comma,
    /// `.`
    Dot,
    /// `->`
    Arrow,
    /// `&`
    Ampersand,
    /// `&&`
    AmpersandAmpersand,
    /// `*`
    Star,
    /// `+`
    Plus,
    /// `++`
    PlusPlus,
    /// `-`
    Minus,
    /// `--`
    MinusMinus,
    /// `~`
    Tilde,
    /// `!`
    Bang,
    /// `!=`
    BangEqual,
    /// `/`
    Slash,
    /// `%`
    Percent,
    /// `<`
    Less,
    /// `<=`
    LessEqual,
    /// `<<`
    ShiftLeft,
    /// `<<=`
    ShiftLeftEqual,
    /// `>`
    Greater,
    /// `>=`
    GreaterEqual,
    /// `>>`
    ShiftRight,
    /// `>>=`
    ShiftRightEqual,
    /// `=`
    Equal,
    /// `==`
    EqualEqual,
    /// `^`
    Caret,
    /// `|`
    Bar,
    /// `||`
    BarBar,
    /// `?`
    Question,
    /// `:`
    Colon,
    /// `+=`
    PlusEqual,
    /// `-=`
    MinusEqual,
    /// `*=`
    StarEqual,
    /// `/=`
    SlashEqual,
    /// `%=`
    PercentEqual,
    /// `&=`
    AmpersandEqual,
    /// `|=`
    BarEqual,
    /// `^=`
    CaretEqual,
}
