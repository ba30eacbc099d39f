//! Commands as bytes.

ghost use Rattle.resp_write.specs.Pack.{pack, pack_pipeline};
ghost use Rattle.protocol_examples.specs.Tables.{Gives};
ghost use Rattle.driver_model.specs.Request.{packed_bytes};
ghost use Rattle.protocol_examples.specs.Packing.{packed_commands, packed_pipelines, packed_submissions};

/// Does nothing. Its contract: the bytes of these commands, pipelines and transactions, and of what is submitted.
pub fn commands_have_these_bytes()
    ensures commands { Gives pack packed_commands }
    ensures pipelines { Gives pack_pipeline packed_pipelines }
    ensures submissions { Gives packed_bytes packed_submissions }
{}
