//! Lists of two.

ghost use Rattle.std.specs.Prelude.{◌≡◌, ◌∷◌, [], IfOk};

use no_memory::NoMemory;

/// Both items of a list of two, in their order. `NoMemory`: the list has another length.
pub fn both_of<T: Drop>(items: Vec<T>) -> Result<(T, T), NoMemory>
    ensures { IfOk result (λ both. items.items ≡ both.0 ∷ both.1 ∷ []) }
{
    let mut items = items;
    let second = items.pop().ok_or(NoMemory)?;
    let first = items.pop().ok_or(NoMemory)?;
    if !items.is_empty() {
        return Err(NoMemory);
    }
    Ok((first, second))
}
