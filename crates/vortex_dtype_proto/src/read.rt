//! From a message to the type that it describes.
ghost use Rattle.vortex_dtype_core.specs.View.{type_of};
ghost use Rattle.vortex_dtype_proto.specs.Sessions.{session_of};
ghost use Rattle.vortex_dtype_proto.specs.Messages.{reading};
ghost use Rattle.vortex_dtype_proto.specs.View.{tree_of, Gives};

use crate::message::Message;
use crate::nodes::read_node;
use crate::session::DTypeSession;
use std::alloc::Global;
use vortex_dtype_core::dtype::DType;
use vortex_dtype_ptype::error::DTypeError;

/// The type that the message describes. Children are judged before their node, from left to right,
/// and the first fault is the error: `DTypeError::Malformed` where a node doesn't fit its kind, and
/// after that `DTypeError::Plugin` where the session refuses an extension.
pub fn from_proto(
    alloc: Global,
    message: &Message,
    session: &DTypeSession,
) -> Result<DType, DTypeError>
    ensures { Gives type_of result
        (reading (session_of name meaning session.now.plugins.items) (tree_of message.now)) }
{
    let mut children = Vec::with_capacity(alloc, message.children.len())?;
    for child in &message.children {
        let dtype = from_proto(alloc, child, session)?;
        children.push(dtype)?;
    }
    let dtype = read_node(alloc, session, &message.kind, message.nullable, children)?;
    Ok(dtype)
}
