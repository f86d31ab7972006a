// Lists that are read part by part.
ghost use Rattle.std.specs.Prelude.{◌≡◌, Option, IfOk, vec_items};
ghost use Rattle.std.specs.Fn.{FnReturnsAt};
ghost use Rattle.std.specs.Option.{option_map};
ghost use Rattle.spelling.specs.Lists.{each};

use std::alloc::{AllocError, Global};

// What each part says, or nothing where a part says nothing.
pub(crate) fn read_each<T, U: Drop, F: Fn(&T) -> Option<U> + Drop>(
    heap: Global,
    parts: &[T],
    read: F,
) -> Result<Option<Vec<U>>, AllocError>
    requires { F.IsAlwaysCallable read }
    ensures { (meaning : T → Option U) → ((part : T) (said : Option U) → FnReturnsAt F.Fn read part said → said ≡ meaning part) → IfOk result (λ o. option_map vec_items o ≡ each meaning parts.now) }
{
    let mut list = Vec::new(heap);
    for part in parts {
        let Some(said) = read(part) else {
            return Ok(None);
        };
        list.push(said)?;
    }
    Ok(Some(list))
}
