//! Native values of the elements of lists.
ghost use Rattle.vortex_model.specs.Content.{contents_of};
ghost use Rattle.vortex_dtype_core.specs.View.{type_of};
ghost use Rattle.vortex_scalar_value.specs.View.{raws_in};
ghost use Rattle.vortex_scalar_convert.specs.Reading.{AreRead, all_read};

use crate::from_scalar::FromScalar;
use std::alloc::Global;
use vortex_dtype_core::dtype::DType;
use vortex_scalar_value::error::ScalarError;
use vortex_scalar_value::scalar_value::ScalarValue;

/// The native values of the items, in order.
pub(crate) fn read_items<T: FromScalar>(
    alloc: Global,
    element: &DType,
    items: &[Option<ScalarValue>],
) -> Result<Vec<T>, ScalarError>
    ensures { AreRead T.says
        (all_read T.reads (type_of element.now) (contents_of (raws_in items.now)))
        (contents_of (raws_in items.now)) result }
{
    let mut all = Vec::with_capacity(alloc, items.len())?;
    for item in items {
        let item = item.as_ref();
        let read = T::from_value(alloc, element, item)?;
        all.push(read)?;
    }
    Ok(all)
}
