//! Settings of tags, and the texts of want of memory.
use api_descriptions::{
    ApiDescription, EndpointTagPolicy, NewEndpointError, RegisterError, TagConfig,
};
use contract_tool::ToolStatus;
use std::collections::BTreeMap;
use std::test::Fail;

#[test]
fn an_api_has_the_settings_of_tags_that_it_was_given_last(rt: HostRuntime) {
    let alloc = rt.alloc();
    let settings = TagConfig {
        allow_other_tags: false,
        policy: EndpointTagPolicy::ExactlyOne,
        tags: BTreeMap::new(alloc),
    };
    let api = ApiDescription::new(alloc);
    assert!(rt; api.get_tag_config().allow_other_tags);
    let api = api.tag_config(settings);
    assert!(rt; !api.get_tag_config().allow_other_tags);
    assert_eq!(rt; api.get_tag_config().policy, EndpointTagPolicy::ExactlyOne);
}

#[test]
fn want_of_memory_is_told_by_its_text(rt: HostRuntime) -> Result<(), Fail> {
    let alloc = rt.alloc();
    let error = NewEndpointError::OutOfMemory.copy(alloc)?;
    assert_eq!(rt; format!(in alloc; "{error}")?.as_str(), "out of memory");
    let status = ToolStatus::OutOfMemory.copy(alloc)?;
    assert_eq!(rt; format!(in alloc; "{status}")?.as_str(), "out of memory");
    assert_eq!(rt; status.code(), 7);
    let error = RegisterError::OutOfMemory.copy(alloc)?;
    assert!(rt; matches!(error, RegisterError::OutOfMemory));
    Ok(())
}
