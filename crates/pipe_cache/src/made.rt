// A module, and the shader that it was emitted from.

ghost use Rattle.std.specs.Prelude.{◌≡◌, Some};
ghost use Rattle.std.specs.Arc.{arc_value};
ghost use Rattle.pipe_cache.specs.Modules.{module_for};

use crate::source::Source;
use spirv_emit::emit;
use spirv_words::Module;
use std::alloc::{AllocError, Global};
use std::sync::Arc;

/// A module with its shader.
#[derive(Drop)]
pub(crate) struct Made {
    source: Arc<Source, Global>,
    emitted: Module,
    ghost made: { module_for (arc_value source).words.items ≡ Some emitted },
}

impl Made {
    /// The module of a shader.
    pub(crate) fn emit(alloc: Global, source: &Arc<Source, Global>) -> Result<Made, AllocError> {
        let emitted = emit(alloc, source.tree())?;
        let source = Arc::try_clone(source)?;
        Ok(Made { source, emitted })
    }

    /// The shader that it was emitted from.
    pub(crate) fn source(&self) -> &Source
        ensures { result.now ≡ arc_value self.now.source }
    {
        &self.source
    }

    /// The module.
    pub(crate) fn emitted(&self) -> &Module
        ensures same { result.now ≡ self.now.emitted }
        ensures means { module_for (arc_value self.now.source).words.items ≡ Some result.now }
    {
        &self.emitted
    }
}
