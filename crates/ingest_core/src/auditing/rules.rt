//! What an audit holds the chunks of a store to.
ghost use Rattle.std.specs.Prelude.{◌≡◌};
ghost use Rattle.sd_base.specs.Params.{numbers_of};

use chunk_names::Namer;
use rabin_window::Tables;
use sd_base::Params;

/// How the chunks of a store are named and cut.
#[derive(Drop)]
pub(crate) struct ChunkRules<'a, N: Namer> {
    pub(crate) namer: &'a N,
    pub(crate) tables: Tables,
    pub(crate) params: Params,
    pub(crate) ghost same_polynomial: { tables.polynomial ≡ params.polynomial },
}

impl<'a, N: Namer> ChunkRules<'a, N> {
    /// The rules of a store that is cut by these parameters.
    pub(crate) fn new(namer: &'a N, params: &Params) -> Self
        ensures params { numbers_of result.params ≡ numbers_of params.now }
    {
        ChunkRules {
            namer,
            tables: Tables::new(params),
            params: *params,
        }
    }
}
