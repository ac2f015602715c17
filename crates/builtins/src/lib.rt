// The predefined macros, 1 to 27: the number of a name, and what the macro of a number does. Whoever asks something of a predefined macro asks
// it here, by its number. (The number is a u8, and no type of its own: the book numbers the macros, and a definition's byte stores the number.)
#![tactic(auto)]

ghost use Rattle.std.specs.Prelude.{◌≡◌, ◌<◌, ◌≤◌, IfSome};
ghost use Rattle.std.specs.Bool.{then_some};
ghost use Rattle.std.specs.Option.{option_and_then};
ghost use Rattle.hashing.specs.Hashing.{bucket_of};
ghost use Rattle.rules.specs.Table.{needs_parenthesis, predefined_number};
ghost use Rattle.builtins.specs.Numbers.{macro_count, candidate_in, has_number};
ghost use Rattle.builtins.specs.Builtins.{builtin_at, kind_of, result_of, change_of};

use ascii::same;

// What a predefined macro does: it only gives a result; it is index, which gives one by a search that takes much stack; or it changes other
// things, or reads what those that do are lent.
#[derive(Clone, Copy)]
pub enum Kind {
    Result,
    Index,
    Change,
}

// The macros that only give a result, but for index.
#[derive(Clone, Copy)]
pub enum ResultMacro {
    Decr,
    Defn,
    Eval,
    Ifdef,
    Ifelse,
    Incr,
    Len,
    Shift,
    Substr,
    Translit,
}

// The macros that change other things, and three that are performed with these for what they read: divnum the current stream, include and
// sinclude the set that is lent to the run.
#[derive(Clone, Copy)]
pub enum ChangeMacro {
    Changecom,
    Changequote,
    Define,
    Divert,
    Divnum,
    Dnl,
    Errprint,
    M4exit,
    M4wrap,
    Popdef,
    Pushdef,
    Undefine,
    Undivert,
    Include,
    Sinclude,
    Copydef,
}

// A predefined macro, by what it does.
#[derive(Clone, Copy)]
pub enum Builtin {
    Result(ResultMacro),
    Index,
    Change(ChangeMacro),
}

// The number of the one predefined name that has a bucket. (The arms go by number; in a table by bucket no name could be seen.)
#[tactic(auto, using(crate::proofs::Naming::in_bucket, crate::proofs::Naming::in_none))]
pub fn candidate(bucket: usize) -> Option<u8>
    ensures { result ≡ candidate_in bucket }
{
    match bucket {
        33 => Some(1),
        149 => Some(2),
        95 => Some(3),
        24 => Some(4),
        100 => Some(5),
        92 => Some(6),
        119 => Some(7),
        137 => Some(8),
        140 => Some(9),
        31 => Some(10),
        188 => Some(11),
        8 => Some(12),
        182 => Some(13),
        45 => Some(14),
        124 => Some(15),
        180 => Some(16),
        47 => Some(17),
        21 => Some(18),
        161 => Some(19),
        78 => Some(20),
        98 => Some(21),
        73 => Some(22),
        102 => Some(23),
        170 => Some(24),
        62 => Some(25),
        65 => Some(26),
        152 => Some(27),
        _ => None,
    }
}

// The name is the predefined one of a number. (No table of the names: with one, runs of many calls took 1 of 100 instructions more.)
#[tactic(auto, using(crate::proofs::Naming::named, crate::proofs::Naming::named_none), unfolding(rules::specs::Table::predefined_names, rules::specs::Bytes::bytes_of))]
fn is_named(name: &[u8], k: u8) -> bool
    ensures { result ≡ has_number name.now k }
{
    match k {
        1 => same(name, b"changecom"),
        2 => same(name, b"changequote"),
        3 => same(name, b"decr"),
        4 => same(name, b"define"),
        5 => same(name, b"defn"),
        6 => same(name, b"divert"),
        7 => same(name, b"divnum"),
        8 => same(name, b"dnl"),
        9 => same(name, b"errprint"),
        10 => same(name, b"eval"),
        11 => same(name, b"ifdef"),
        12 => same(name, b"ifelse"),
        13 => same(name, b"incr"),
        14 => same(name, b"index"),
        15 => same(name, b"len"),
        16 => same(name, b"m4exit"),
        17 => same(name, b"m4wrap"),
        18 => same(name, b"popdef"),
        19 => same(name, b"pushdef"),
        20 => same(name, b"shift"),
        21 => same(name, b"substr"),
        22 => same(name, b"translit"),
        23 => same(name, b"undefine"),
        24 => same(name, b"undivert"),
        25 => same(name, b"include"),
        26 => same(name, b"sinclude"),
        27 => same(name, b"copydef"),
        _ => false,
    }
}

// The candidate, where the name is the predefined one of this number. Where it is the candidate of the name's bucket, this is the number of the
// name: it is compared with one predefined name, or with none.
#[tactic(auto, using(crate::proofs::Naming::confirmed_is))]
pub fn confirmed(name: &[u8], candidate: Option<u8>) -> Option<u8>
    ensures compared { result ≡ option_and_then (λ k. then_some (has_number name.now k) k) candidate }
    ensures number { candidate ≡ candidate_in (bucket_of name.now) → result ≡ predefined_number name.now }
{
    candidate.filter(|k| is_named(name, *k))
}

// The number of a predefined name.
#[tactic(auto, using(crate::proofs::Naming::number_few))]
pub fn number_of(name: &[u8]) -> Option<u8>
    ensures number { result ≡ predefined_number name.now }
    ensures few { IfSome result (λ k. (0 < k) × (k ≤ macro_count)) }
{
    confirmed(name, candidate(hashing::bucket_of(name)))
}

// Whether the macro of a number is called only with a parenthesis behind its name: such a number has one in the table, from 0 on. (Macros to
// come join it; a `match` in its place made the scanning of words slower.)
pub fn needs_parenthesis(k: u8) -> bool
    ensures { result ≡ needs_parenthesis k }
{
    let needing = b"---(((---(((((((-(((((((-(((";
    needing.get(k as usize).is_some_and(|x| *x == b'(')
}

// The macro of a number.
#[tactic(auto, using(crate::proofs::BuiltinLaws::builtin_none), unfolding(crate::specs::Builtins::builtins, crate::specs::Builtins::builtin_at))]
pub fn builtin_at(k: u8) -> Option<Builtin>
    ensures { result ≡ builtin_at k }
{
    match k {
        1 => Some(Builtin::Change(ChangeMacro::Changecom)),
        2 => Some(Builtin::Change(ChangeMacro::Changequote)),
        3 => Some(Builtin::Result(ResultMacro::Decr)),
        4 => Some(Builtin::Change(ChangeMacro::Define)),
        5 => Some(Builtin::Result(ResultMacro::Defn)),
        6 => Some(Builtin::Change(ChangeMacro::Divert)),
        7 => Some(Builtin::Change(ChangeMacro::Divnum)),
        8 => Some(Builtin::Change(ChangeMacro::Dnl)),
        9 => Some(Builtin::Change(ChangeMacro::Errprint)),
        10 => Some(Builtin::Result(ResultMacro::Eval)),
        11 => Some(Builtin::Result(ResultMacro::Ifdef)),
        12 => Some(Builtin::Result(ResultMacro::Ifelse)),
        13 => Some(Builtin::Result(ResultMacro::Incr)),
        14 => Some(Builtin::Index),
        15 => Some(Builtin::Result(ResultMacro::Len)),
        16 => Some(Builtin::Change(ChangeMacro::M4exit)),
        17 => Some(Builtin::Change(ChangeMacro::M4wrap)),
        18 => Some(Builtin::Change(ChangeMacro::Popdef)),
        19 => Some(Builtin::Change(ChangeMacro::Pushdef)),
        20 => Some(Builtin::Result(ResultMacro::Shift)),
        21 => Some(Builtin::Result(ResultMacro::Substr)),
        22 => Some(Builtin::Result(ResultMacro::Translit)),
        23 => Some(Builtin::Change(ChangeMacro::Undefine)),
        24 => Some(Builtin::Change(ChangeMacro::Undivert)),
        25 => Some(Builtin::Change(ChangeMacro::Include)),
        26 => Some(Builtin::Change(ChangeMacro::Sinclude)),
        27 => Some(Builtin::Change(ChangeMacro::Copydef)),
        _ => None,
    }
}

// The macro of a number, if it only gives a result.
#[tactic(auto, unfolding(crate::specs::Builtins::result_of))]
pub fn result_macro(k: u8) -> Option<ResultMacro>
    ensures { result ≡ result_of (builtin_at k) }
{
    match builtin_at(k) {
        Some(Builtin::Result(r)) => Some(r),
        _ => None,
    }
}

// What the macro of a number does. (A number without a macro stands with those that change other things, and none of these is performed.)
#[tactic(auto, unfolding(crate::specs::Builtins::kind_of))]
pub fn kind_of(k: u8) -> Kind
    ensures { result ≡ kind_of (builtin_at k) }
{
    match builtin_at(k) {
        Some(Builtin::Result(_)) => Kind::Result,
        Some(Builtin::Index) => Kind::Index,
        Some(Builtin::Change(_)) | None => Kind::Change,
    }
}

// The macro of a number, if it changes other things.
#[tactic(auto, unfolding(crate::specs::Builtins::change_of))]
pub fn change_macro(k: u8) -> Option<ChangeMacro>
    ensures { result ≡ change_of (builtin_at k) }
{
    match builtin_at(k) {
        Some(Builtin::Change(c)) => Some(c),
        _ => None,
    }
}
