//! Sessions of plugins.
ghost use Rattle.std.specs.Prelude.{◌≡◌, ◌≢◌, ℕ, List, Some, None, IfOk, OnOk, OnErr, IfErr, option_map};
ghost use Rattle.vortex_dtype_ptype.specs.declared.error.DTypeError.TheVariants.{Memory, Plugin};
ghost use Rattle.vortex_dtype_core.specs.View.{type_of};
ghost use Rattle.vortex_dtype_proto.specs.Sessions.{no_plugins, session_of, place_of, with_plugin, admit};

use crate::plugin::ExtDTypePlugin;
use std::alloc::{AllocError, Global};
use vortex_dtype_core::ByteBuffer;
use vortex_dtype_core::dtype::DType;
use vortex_dtype_ptype::error::DTypeError;

/// The plugins that read extensions, as Vortex's `DTypeSession`.
#[derive(Drop)]
pub struct DTypeSession {
    plugins: Vec<Box<dyn ExtDTypePlugin>>,
}

impl DTypeSession {
    /// A session without plugins, which accepts every extension with its metadata unchanged.
    pub fn empty(alloc: Global) -> DTypeSession
        ensures { (id : List ℕ) → session_of name meaning result.plugins.items id ≡ no_plugins id }
    {
        DTypeSession {
            plugins: Vec::new(alloc),
        }
    }

    /// Adds a plugin, in place of an earlier one of its id.
    pub fn register(&mut self, plugin: Box<dyn ExtDTypePlugin>) -> Result<(), AllocError>
        ensures ok { OnOk result ((id : List ℕ) → session_of name meaning self.new.plugins.items id
            ≡ with_plugin (name plugin) (meaning plugin)
            (session_of name meaning self.old.plugins.items) id) }
        ensures err { OnErr result (self.new.plugins.items ≡ self.old.plugins.items) }
    {
        match self.place(id_of(&plugin)) {
            Some(place) => {
                self.plugins[place] = plugin;
                Ok(())
            }
            None => {
                self.plugins.push(plugin)?;
                Ok(())
            }
        }
    }

    /// The metadata that an extension of this id has over this storage. `DTypeError::Plugin` where
    /// the plugin of the id refuses.
    pub(crate) fn admit(
        &self,
        id: &str,
        metadata: &Option<ByteBuffer>,
        storage: &DType,
    ) -> Result<ByteBuffer, DTypeError>
        ensures admitted { IfOk result (λ bytes.
            admit (session_of name meaning self.now.plugins.items) id.now metadata.now
            (type_of storage.now) ≡ Some bytes) }
        ensures refused { IfErr result (λ e. e ≢ Memory → (e ≡ Plugin)
            × (admit (session_of name meaning self.now.plugins.items) id.now metadata.now
            (type_of storage.now) ≡ None)) }
    {
        let metadata = match metadata {
            Some(bytes) => bytes.clone()?,
            None => ByteBuffer::new(),
        };
        match self.find(id) {
            None => Ok(metadata),
            Some(plugin) => match read_by(plugin, metadata.as_slice(), storage) {
                Ok(bytes) => Ok(bytes),
                Err(DTypeError::Memory) => Err(DTypeError::Memory),
                Err(_) => Err(DTypeError::Plugin),
            },
        }
    }

    fn find(&self, id: &str) -> Option<&Box<dyn ExtDTypePlugin>>
        ensures { option_map (λ b. meaning b.now) result
            ≡ session_of name meaning self.now.plugins.items id.now }
    {
        for plugin in &self.plugins {
            if id_of(plugin) == id {
                return Some(plugin);
            }
        }
        None
    }

    #[tactic(auto, using(crate::proofs::Plugins::places))]
    fn place(&self, id: &str) -> Option<usize>
        ensures { result ≡ place_of name self.now.plugins.items id.now }
    {
        for (place, plugin) in self.plugins.iter().enumerate() {
            if id_of(plugin) == id {
                return Some(place);
            }
        }
        None
    }
}

fn id_of(plugin: &Box<dyn ExtDTypePlugin>) -> &str
    ensures { result.now ≡ name plugin.now }
{
    plugin.id()
}

fn read_by(
    plugin: &Box<dyn ExtDTypePlugin>,
    metadata: &[u8],
    storage: &DType,
) -> Result<ByteBuffer, DTypeError>
    ensures read { IfOk result (λ bytes. meaning plugin.now metadata.now (type_of storage.now)
        ≡ Some bytes) }
    ensures refused { IfErr result
        (λ e. e ≢ Memory → meaning plugin.now metadata.now (type_of storage.now) ≡ None) }
{
    let bytes = plugin.read(metadata, storage)?;
    Ok(bytes)
}
