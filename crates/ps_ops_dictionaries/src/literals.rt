//! The operator that makes a dictionary of what stands above a mark (PLRM2, 8 '>>').

ghost use Rattle.std.specs.Prelude.{◌≡◌, ◌≤◌, ◌<◌, ◌+◌, ◌*◌, ◌/◌, ℕ, List, [], length, map};
ghost use Rattle.std.specs.Prelude.{not, true, Some, None, false, reverse, take, drop, nat_le};
ghost use Rattle.std.specs.Prelude.{if◌then◌else◌, OnOk, IfErr, ◌++◌, vec_capacity};
ghost use Rattle.std.specs.List.{list_all, list_any};
ghost use Rattle.std.specs.Str.{bytes_eq};
ghost use Rattle.ps_language.specs.Access.{may_read_text};
ghost use Rattle.ps_language.specs.Dictionaries.{fits_key};
ghost use Rattle.ps_language.specs.Limits.{names_limit, operand_limit};
ghost use Rattle.ps_language.specs.Outcome.{fails, leaves};
ghost use Rattle.ps_language.specs.Readers as language;
ghost use Rattle.ps_language.specs.Rows.{naming_row};
ghost use Rattle.ps_language.specs.RowsDictionaries as rows;
ghost use Rattle.ps_language.specs.RowsDictionaries.{keys_among, pairs_among};
ghost use Rattle.ps_language.specs.Value.{Store, Value};
ghost use Rattle.ps_mem.specs.Heap.{Heap, birth_at};
ghost use Rattle.ps_mem.specs.Keeps.{Keeps};
ghost use Rattle.ps_mem.specs.Meaning.{value_of};
ghost use Rattle.ps_mem.specs.Index.{pairs_of_words};
ghost use Rattle.ps_mem.specs.Shows.{AreValues, AreWithin, IsReady, IsSound, Shows, pair_of};
ghost use Rattle.ps_names.specs.Names.{place_of, AreNames};
ghost use Rattle.ps_ops_operands.specs.Changes.{KeepsLogsWithin, values_in};
ghost use Rattle.ps_ops_state.specs.Acts.{Acts};
ghost use Rattle.ps_ops_state.specs.Lent.{lent_of, IsGood};
ghost use Rattle.ps_ops_dictionaries.specs.Asks.{end_dict_asks};
ghost use Rattle.ps_ops_dictionaries.specs.Literals.{IsNamesFault, LacksPairs, LeavesAs};
ghost use Rattle.ps_ops_dictionaries.specs.Literals.{is_unmet_as, making_pairs, met_among};
ghost use Rattle.ps_ops_dictionaries.specs.Literals.{tested};

use crate::makes::dictionary_word;
use crate::puts::refuse;
use ps_dict::makes::make_dictionary;
use ps_language::errors::ErrorName;
use ps_mem::Memory;
use ps_names::{NAME_LIMIT, NAMES_LIMIT, Names};
use ps_ops_operands::Operands;
use ps_ops_operands::failure::NotMade;
use ps_ops_operands::permits::granted;
use ps_ops_operands::readers::string_of;
use ps_ops_operands::stack_operators::mark_depth;
use ps_ops_state::breaks::Break;
use ps_ops_state::lent::{Attempt, Context, Runtime};
use ps_step_lookup::keys::{Key, form_key, is_null, is_readable_key, read_key};
use ps_word::words::Word;

/// Whether a null stands among the keys.
fn has_null_key(elements: &[Word]) -> bool
    requires few { length elements.now < operand_limit }
    ensures { (h : Heap) (names : List (List ℕ)) → AreValues h elements.now
        → list_all (λ k. not (language.is_null k)) (keys_among (values_in h names elements.now))
        ≡ not result }
{
    for place in 0..elements.len().div_ceil(2) {
        if is_null(elements[2 * place]) {
            return true;
        }
    }
    false
}

/// Whether a string that may not be read stands among the keys.
fn has_hidden_key(elements: &[Word]) -> bool
    requires few { length elements.now < operand_limit }
    ensures { (h : Heap) (names : List (List ℕ))
        → list_all may_read_text (keys_among (values_in h names elements.now)) ≡ not result }
{
    for place in 0..elements.len().div_ceil(2) {
        if !is_readable_key(elements[2 * place]) {
            return true;
        }
    }
    false
}

/// Whether a key is a string of more characters than a name may have.
fn is_long_key(word: Word) -> bool
    ensures { (h : Heap) (names : List (List ℕ))
        → fits_key (value_of (birth_at h) names word) ≡ not result }
{
    match string_of(word) {
        Some(part) => part.length as usize > NAME_LIMIT,
        None => false,
    }
}

/// Whether such a string stands among the keys.
fn has_long_key(elements: &[Word]) -> bool
    requires few { length elements.now < operand_limit }
    ensures { (h : Heap) (names : List (List ℕ))
        → list_all fits_key (keys_among (values_in h names elements.now)) ≡ not result }
{
    for place in 0..elements.len().div_ceil(2) {
        if is_long_key(elements[2 * place]) {
            return true;
        }
    }
    false
}

/// Whether a key is a string of these characters, of which no name was met.
fn is_unmet_text(key: &Key, text: &[u8]) -> bool
    ensures { result ≡ is_unmet_as text.now key.now }
{
    match key {
        Key::Unmet(other) => text == other.as_slice(),
        Key::Met(_) | Key::TooLong => false,
    }
}

/// Whether a text of which no name was met is that of one of the first keys.
fn is_before<M: Memory>(
    memory: &mut M,
    names: &Names,
    elements: &[Word],
    before: usize,
    text: &[u8],
) -> bool
    requires sound { IsSound (M.heap memory.old) }
    requires held { AreValues (M.heap memory.old) elements.now }
    requires few { length elements.now < operand_limit }
    requires within { 2 * before ≤ length elements.now }
    requires short { (h : Heap) (met : List (List ℕ))
        → list_all fits_key (keys_among (values_in h met elements.now)) ≡ true }
    requires unmet { place_of text.now names.now ≡ None }
    requires names { AreNames names.now }
    ensures heap { M.heap memory.new ≡ M.heap memory.old }
    ensures grants { M.grants memory.new ≡ M.grants memory.old }
    ensures answer { (s : Store) → Shows (M.heap memory.old) names.now s
        → AreWithin (M.heap memory.old) names.now s elements.now
        → list_any (bytes_eq text.now) (met_among names.now s (take (2 * before)
        (values_in (M.heap memory.old) names.now elements.now))) ≡ result }
{
    for place in 0..before {
        let read = read_key(memory, names, elements[2 * place]);
        if is_unmet_text(&read, text) {
            return true;
        }
    }
    false
}

/// Whether the key at a place is a string of which no name was met, and the first of its text.
fn is_new<M: Memory>(memory: &mut M, names: &Names, elements: &[Word], place: usize) -> bool
    requires sound { IsSound (M.heap memory.old) }
    requires held { AreValues (M.heap memory.old) elements.now }
    requires few { length elements.now < operand_limit }
    requires place { 2 * place < length elements.now }
    requires short { (h : Heap) (met : List (List ℕ))
        → list_all fits_key (keys_among (values_in h met elements.now)) ≡ true }
    requires names { AreNames names.now }
    ensures heap { M.heap memory.new ≡ M.heap memory.old }
    ensures grants { M.grants memory.new ≡ M.grants memory.old }
    ensures answer { (s : Store) → Shows (M.heap memory.old) names.now s
        → AreWithin (M.heap memory.old) names.now s elements.now → let values =
        values_in (M.heap memory.old) names.now elements.now in
        length (met_among names.now s (take (2 * (place + 1)) values))
        ≡ length (met_among names.now s (take (2 * place) values)) + (if result then 1 else 0) }
{
    let read = read_key(memory, names, elements[2 * place]);
    match &read {
        Key::Unmet(text) => !is_before(memory, names, elements, place, text.as_slice()),
        Key::Met(_) | Key::TooLong => false,
    }
}

/// Whether all names of the keys may be met.
fn names_fit<M: Memory>(memory: &mut M, names: &Names, elements: &[Word]) -> bool
    requires sound { IsSound (M.heap memory.old) }
    requires held { AreValues (M.heap memory.old) elements.now }
    requires even { 2 * (length elements.now / 2) ≡ length elements.now }
    requires few { length elements.now < operand_limit }
    requires short { (h : Heap) (met : List (List ℕ))
        → list_all fits_key (keys_among (values_in h met elements.now)) ≡ true }
    requires names { AreNames names.now }
    ensures heap { M.heap memory.new ≡ M.heap memory.old }
    ensures grants { M.grants memory.new ≡ M.grants memory.old }
    ensures answer { (s : Store) → Shows (M.heap memory.old) names.now s
        → AreWithin (M.heap memory.old) names.now s elements.now
        → nat_le (length (met_among names.now s
        (values_in (M.heap memory.old) names.now elements.now))) names_limit ≡ result }
{
    let mut count = names.len();
    if count + elements.len() / 2 <= NAMES_LIMIT {
        return true;
    }
    for place in 0..elements.len() / 2 {
        if is_new(memory, names, elements, place) {
            count += 1;
        }
    }
    count <= NAMES_LIMIT
}

/// Whether what stands above the mark, counted from it, may be put into a dictionary: keys with
/// their values.
///
/// Raises `typecheck` of a null key, `invalidaccess` of a key that may not be read, `rangecheck`
/// where a value is missing, and `limitcheck` of a name.
fn test_elements<M: Memory>(
    memory: &mut M,
    names: &Names,
    elements: &[Word],
) -> Result<(), ErrorName>
    requires sound { IsSound (M.heap memory.old) }
    requires held { AreValues (M.heap memory.old) elements.now }
    requires few { length elements.now < operand_limit }
    requires names { AreNames names.now }
    ensures heap { M.heap memory.new ≡ M.heap memory.old }
    ensures grants { M.grants memory.new ≡ M.grants memory.old }
    ensures even { OnOk result (2 * (length elements.now / 2) ≡ length elements.now) }
    ensures short { OnOk result ((h : Heap) (met : List (List ℕ))
        → list_all fits_key (keys_among (values_in h met elements.now)) ≡ true) }
    ensures fits { OnOk result ((s : Store) → Shows (M.heap memory.old) names.now s
        → AreWithin (M.heap memory.old) names.now s elements.now
        → nat_le (length (met_among names.now s
        (values_in (M.heap memory.old) names.now elements.now))) names_limit ≡ true) }
    ensures tested { OnOk result ((s : Store) → Shows (M.heap memory.old) names.now s
        → AreWithin (M.heap memory.old) names.now s elements.now
        → (pairs : List (Value × Value))
        × (tested names.now s (values_in (M.heap memory.old) names.now elements.now)
        ≡ leaves (
          pairs,
          met_among names.now s
              (values_in (M.heap memory.old) names.now elements.now),
        ))) }
    ensures error { IfErr result (λ error. (s : Store) → Shows (M.heap memory.old) names.now s
        → AreWithin (M.heap memory.old) names.now s elements.now
        → tested names.now s (values_in (M.heap memory.old) names.now elements.now)
        ≡ fails error) }
{
    if has_null_key(elements) {
        return Err(ErrorName::TypeCheck);
    }
    if has_hidden_key(elements) {
        return Err(ErrorName::InvalidAccess);
    }
    if elements.len() % 2 != 0 {
        return Err(ErrorName::RangeCheck);
    }
    if has_long_key(elements) {
        return Err(ErrorName::LimitCheck);
    }
    if !names_fit(memory, names, elements) {
        return Err(ErrorName::LimitCheck);
    }
    Ok(())
}

/// Meets the names of the keys in order. `LimitCheck` where no more names may be met, and not made
/// for want of memory for a name; those before it are met then.
fn form_names<M: Memory>(memory: &mut M, names: &mut Names, elements: &[Word]) -> Result<(), Break>
    requires sound { IsSound (M.heap memory.old) }
    requires held { AreValues (M.heap memory.old) elements.now }
    requires even { 2 * (length elements.now / 2) ≡ length elements.now }
    requires few { length elements.now < operand_limit }
    requires short { (h : Heap) (met : List (List ℕ))
        → list_all fits_key (keys_among (values_in h met elements.now)) ≡ true }
    requires names { AreNames names.old }
    ensures heap { M.heap memory.new ≡ M.heap memory.old }
    ensures grants { M.grants memory.new ≡ M.grants memory.old }
    ensures more { (more : List (List ℕ)) × (names.new ≡ names.old ++ more) }
    ensures names { AreNames names.new }
    ensures met { OnOk result ((s : Store) → Shows (M.heap memory.old) names.old s
        → AreWithin (M.heap memory.old) names.old s elements.now
        → met_among names.old s (values_in (M.heap memory.old) names.old elements.now)
        ≡ names.new) }
    ensures fault { IfErr result (IsNamesFault (M.heap memory.old) names.old elements.now) }
{
    for place in 0..elements.len() / 2 {
        let read = read_key(memory, names, elements[2 * place]);
        form_key(names, &read)?;
    }
    Ok(())
}

/// The words of keys whose names are met, with their values. The list has room for them.
fn gather_pairs<M: Memory>(memory: &mut M, names: &Names, elements: &[Word], words: &mut Vec<Word>)
    requires sound { IsSound (M.heap memory.old) }
    requires held { AreValues (M.heap memory.old) elements.now }
    requires even { 2 * (length elements.now / 2) ≡ length elements.now }
    requires few { length elements.now < operand_limit }
    requires empty { words.old.items ≡ [] }
    requires room { length elements.now ≤ vec_capacity words.old }
    requires names { AreNames names.now }
    ensures heap { M.heap memory.new ≡ M.heap memory.old }
    ensures grants { M.grants memory.new ≡ M.grants memory.old }
    ensures count { length words.new.items ≡ length elements.now }
    ensures held { AreValues (M.heap memory.old) words.new.items }
    ensures room { vec_capacity words.new ≡ vec_capacity words.old }
    ensures within { (s : Store) → Shows (M.heap memory.old) names.now s
        → AreWithin (M.heap memory.old) names.now s elements.now
        → AreWithin (M.heap memory.old) names.now s words.new.items }
    ensures pairs { (s : Store) → Shows (M.heap memory.old) names.now s
        → AreWithin (M.heap memory.old) names.now s elements.now
        → met_among names.now s (values_in (M.heap memory.old) names.now elements.now) ≡ names.now
        → pairs_among s (values_in (M.heap memory.old) names.now elements.now)
        ≡ Some (map (pair_of (birth_at (M.heap memory.old)) names.now)
        (pairs_of_words words.new.items)) }
{
    for place in 0..elements.len() / 2 {
        let element = elements[2 * place];
        let read = read_key(memory, names, element);
        let key = read.word().unwrap_or(element);
        words.push_reserved(key);
        words.push_reserved(elements[2 * place + 1]);
    }
}

/// Makes the dictionary of what stands above the mark, in the place of both; the names of the keys
/// are met. Not made, and all is as it was, where the list lacks room for the words, or where there
/// is none for the dictionary.
fn make_pairs<M: Memory>(
    operands: &mut Operands,
    memory: &mut M,
    names: &Names,
    words: &mut Vec<Word>,
    depth: usize,
) -> Result<(), NotMade>
    requires ready { IsReady (M.heap memory.old) operands.old }
    requires empty { words.old.items ≡ [] }
    requires within { depth < length operands.old }
    requires few { depth < operand_limit }
    requires even { 2 * (depth / 2) ≡ depth }
    requires names { AreNames names.now }
    ensures empty { words.new.items ≡ [] }
    ensures room { vec_capacity words.old ≤ vec_capacity words.new }
    ensures logs { (slot : ℕ)
        → KeepsLogsWithin 0 (M.grants memory.old) (M.grants memory.new) slot }
    ensures unmade { IfErr result (λ reason. (M.heap memory.new ≡ M.heap memory.old)
        × (operands.new ≡ operands.old)
        × LacksPairs reason (M.heap memory.old) (vec_capacity words.old) depth) }
    ensures ready { OnOk result (IsReady (M.heap memory.new) operands.new) }
    ensures keeps { OnOk result (Keeps (M.heap memory.old) (M.heap memory.new)) }
    ensures left { OnOk result ((s : Store) (pairs : List (Value × Value))
        → Shows (M.heap memory.old) names.now s
        → AreWithin (M.heap memory.old) names.now s operands.old → let values =
        values_in (M.heap memory.old) names.now (reverse (take depth operands.old)) in
        met_among names.now s values ≡ names.now → pairs_among s values ≡ Some pairs
        → LeavesAs (making_pairs pairs
        (values_in (M.heap memory.old) names.now (drop (depth + 1) operands.old)) s) names.now
        (M.heap memory.new) operands.new) }
{
    if words.reserve(depth).is_err() {
        return Err(NotMade::Memory);
    }
    if let Err(reason) = granted(memory, 8 + 3 * (depth / 2) as u32, 1) {
        return Err(reason);
    }
    gather_pairs(memory, names, operands.topmost(depth), words);
    let address = make_dictionary(memory, words.as_slice());
    words.clear();
    operands.replace(depth + 1, dictionary_word(address));
    Ok(())
}

/// `mark k1 x1 .. kn xn >> D`: a dictionary of the keys and values above the mark; strings' names
/// are formed.
///
/// Raises `unmatchedmark`, `typecheck` of a null key, `invalidaccess` of a key that may not be
/// read, `rangecheck` where a value is missing, `limitcheck` of a name, and `VMerror` in a refused
/// step. Not made for want of memory for a name, of the records of a note, of room for the list of
/// its words, or for the dictionary; no name is formed then.
pub fn end_dict<M: Memory>(
    context: &mut Context,
    runtime: &mut Runtime<M>,
    attempt: Attempt,
) -> Result<(), Break>
    requires good { IsGood (lent_of M.heap M.grants context.old runtime.old) }
    ensures acts { Acts end_dict_asks (naming_row rows.end_dict_row) attempt result
        (lent_of M.heap M.grants context.old runtime.old)
        (lent_of M.heap M.grants context.new runtime.new) }
{
    let Some(depth) = mark_depth(&context.operands) else {
        return Err(Break::Raises(ErrorName::UnmatchedMark));
    };
    let elements = context.operands.topmost(depth);
    if let Err(error) = test_elements(&mut runtime.memory, &runtime.shared.names, elements) {
        return Err(Break::Raises(error));
    }
    let count = runtime.shared.names.len();
    if let Err(fault) = form_names(&mut runtime.memory, &mut runtime.shared.names, elements) {
        runtime.shared.names.truncate(count);
        return Err(fault);
    }
    if attempt.refused {
        if runtime.shared.names.len() == count {
            return Err(Break::Raises(ErrorName::VmError));
        }
        let names = &mut runtime.shared.names;
        return Err(refuse(names, &mut runtime.memory, attempt.slot, count));
    }
    let shared = &mut runtime.shared;
    let words = &mut shared.scratch.words;
    let memory = &mut runtime.memory;
    if let Err(reason) = make_pairs(&mut context.operands, memory, &shared.names, words, depth) {
        shared.names.truncate(count);
        return Err(Break::NotMade(reason));
    }
    Ok(())
}
