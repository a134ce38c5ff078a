ghost use Rattle.std.specs.Prelude.{◌≡◌, ◌≤◌, ◌<◌, IsTrue, length};
ghost use Rattle.call_log.specs.Body.{fits, call_of, buffer_of, view_of, create_shader_of, query_of, destroy_of, set_shader_of, set_constant_of, set_srv_of, set_uav_of, dispatch_of, dispatch_indirect_of, copy_region_of, copy_of, update_of, clear_uav_of, set_predication_of, begin_of, end_query_of, map_write_of, map_read_of, get_data_of, finish_list_of, execute_list_of};
ghost use Rattle.call_log.specs.View.{call_view};

use crate::body::{tail, word_at};
use crate::call::Call;
use crate::kinds::*;

/// The call that a record of this kind and body spells.
#[tactic(auto, unfolding(crate::specs::Kinds::kind_numbered, crate::specs::Body::call_of))]
pub(crate) fn call_from(kind: u16, body: &[u8]) -> Call<'_>
    requires { IsTrue (fits kind body.now) }
    ensures { call_view result ≡ call_of kind body.now }
{
    match kind {
        BUFFER => buffer_call(body),
        VIEW => view_call(body),
        CREATE_SHADER => create_shader_call(body),
        QUERY => query_call(body),
        DESTROY => destroy_call(body),
        SET_SHADER => set_shader_call(body),
        SET_CONSTANT => set_constant_call(body),
        SET_SRV => set_srv_call(body),
        SET_UAV => set_uav_call(body),
        CLEAR_STATE => Call::ClearState,
        DISPATCH => dispatch_call(body),
        DISPATCH_INDIRECT => dispatch_indirect_call(body),
        COPY_REGION => copy_region_call(body),
        COPY => copy_call(body),
        UPDATE => update_call(body),
        CLEAR_UAV => clear_uav_call(body),
        SET_PREDICATION => set_predication_call(body),
        BEGIN => begin_call(body),
        END_QUERY => end_query_call(body),
        MAP_WRITE => map_write_call(body),
        MAP_READ => map_read_call(body),
        GET_DATA => get_data_call(body),
        FLUSH => Call::Flush,
        FINISH_LIST => finish_list_call(body),
        EXECUTE_LIST => execute_list_call(body),
        kind => Call::Draw { kind, body },
    }
}

fn buffer_call(body: &[u8]) -> Call<'_>
    requires { 28 ≤ length body.now }
    ensures { call_view result ≡ buffer_of body.now }
{
    Call::Buffer {
        id: word_at(body, 0),
        size: word_at(body, 1),
        usage: word_at(body, 2),
        bind: word_at(body, 3),
        misc: word_at(body, 4),
        stride: word_at(body, 5),
        bytes: tail(body, 28),
    }
}

fn view_call(body: &[u8]) -> Call<'_>
    requires { 28 ≤ length body.now }
    ensures { call_view result ≡ view_of body.now }
{
    Call::View {
        view: word_at(body, 0),
        res: word_at(body, 1),
        kind: word_at(body, 2),
        form: word_at(body, 3),
        components: word_at(body, 4),
        first: word_at(body, 5),
        count: word_at(body, 6),
    }
}

fn create_shader_call(body: &[u8]) -> Call<'_>
    requires { 4 ≤ length body.now }
    ensures { call_view result ≡ create_shader_of body.now }
{
    Call::CreateShader {
        id: word_at(body, 0),
        words: tail(body, 4),
    }
}

fn query_call(body: &[u8]) -> Call<'_>
    requires { 8 ≤ length body.now }
    ensures { call_view result ≡ query_of body.now }
{
    Call::Query {
        id: word_at(body, 0),
        sort: word_at(body, 1),
    }
}

fn destroy_call(body: &[u8]) -> Call<'_>
    requires { 8 ≤ length body.now }
    ensures { call_view result ≡ destroy_of body.now }
{
    Call::Destroy {
        class: word_at(body, 0),
        id: word_at(body, 1),
    }
}

fn set_shader_call(body: &[u8]) -> Call<'_>
    requires { 4 ≤ length body.now }
    ensures { call_view result ≡ set_shader_of body.now }
{
    Call::SetShader {
        id: word_at(body, 0),
    }
}

fn set_constant_call(body: &[u8]) -> Call<'_>
    requires { 8 ≤ length body.now }
    ensures { call_view result ≡ set_constant_of body.now }
{
    Call::SetConstant {
        slot: word_at(body, 0),
        res: word_at(body, 1),
    }
}

fn set_srv_call(body: &[u8]) -> Call<'_>
    requires { 8 ≤ length body.now }
    ensures { call_view result ≡ set_srv_of body.now }
{
    Call::SetSrv {
        slot: word_at(body, 0),
        view: word_at(body, 1),
    }
}

fn set_uav_call(body: &[u8]) -> Call<'_>
    requires { 8 ≤ length body.now }
    ensures { call_view result ≡ set_uav_of body.now }
{
    Call::SetUav {
        slot: word_at(body, 0),
        view: word_at(body, 1),
    }
}

fn dispatch_call(body: &[u8]) -> Call<'_>
    requires { 12 ≤ length body.now }
    ensures { call_view result ≡ dispatch_of body.now }
{
    Call::Dispatch {
        x: word_at(body, 0),
        y: word_at(body, 1),
        z: word_at(body, 2),
    }
}

fn dispatch_indirect_call(body: &[u8]) -> Call<'_>
    requires { 8 ≤ length body.now }
    ensures { call_view result ≡ dispatch_indirect_of body.now }
{
    Call::DispatchIndirect {
        res: word_at(body, 0),
        offset: word_at(body, 1),
    }
}

fn copy_region_call(body: &[u8]) -> Call<'_>
    requires { 20 ≤ length body.now }
    ensures { call_view result ≡ copy_region_of body.now }
{
    Call::CopyRegion {
        target: word_at(body, 0),
        target_offset: word_at(body, 1),
        source: word_at(body, 2),
        source_offset: word_at(body, 3),
        length: word_at(body, 4),
    }
}

fn copy_call(body: &[u8]) -> Call<'_>
    requires { 8 ≤ length body.now }
    ensures { call_view result ≡ copy_of body.now }
{
    Call::Copy {
        target: word_at(body, 0),
        source: word_at(body, 1),
    }
}

fn update_call(body: &[u8]) -> Call<'_>
    requires { 12 ≤ length body.now }
    ensures { call_view result ≡ update_of body.now }
{
    Call::Update {
        res: word_at(body, 0),
        offset: word_at(body, 1),
        bytes: tail(body, 12),
    }
}

fn clear_uav_call(body: &[u8]) -> Call<'_>
    requires { 20 ≤ length body.now }
    ensures { call_view result ≡ clear_uav_of body.now }
{
    Call::ClearUav {
        view: word_at(body, 0),
        v0: word_at(body, 1),
        v1: word_at(body, 2),
        v2: word_at(body, 3),
        v3: word_at(body, 4),
    }
}

fn set_predication_call(body: &[u8]) -> Call<'_>
    requires { 16 ≤ length body.now }
    ensures { call_view result ≡ set_predication_of body.now }
{
    Call::SetPredication {
        kind: word_at(body, 0),
        id: word_at(body, 1),
        offset: word_at(body, 2),
        value: word_at(body, 3),
    }
}

fn begin_call(body: &[u8]) -> Call<'_>
    requires { 4 ≤ length body.now }
    ensures { call_view result ≡ begin_of body.now }
{
    Call::Begin {
        query: word_at(body, 0),
    }
}

fn end_query_call(body: &[u8]) -> Call<'_>
    requires { 4 ≤ length body.now }
    ensures { call_view result ≡ end_query_of body.now }
{
    Call::EndQuery {
        query: word_at(body, 0),
    }
}

fn map_write_call(body: &[u8]) -> Call<'_>
    requires { 16 ≤ length body.now }
    ensures { call_view result ≡ map_write_of body.now }
{
    Call::MapWrite {
        res: word_at(body, 0),
        mode: word_at(body, 1),
        offset: word_at(body, 2),
        bytes: tail(body, 16),
    }
}

fn map_read_call(body: &[u8]) -> Call<'_>
    requires { 16 ≤ length body.now }
    ensures { call_view result ≡ map_read_of body.now }
{
    Call::MapRead {
        res: word_at(body, 0),
        flag: word_at(body, 1),
        offset: word_at(body, 2),
        length: word_at(body, 3),
    }
}

fn get_data_call(body: &[u8]) -> Call<'_>
    requires { 8 ≤ length body.now }
    ensures { call_view result ≡ get_data_of body.now }
{
    Call::GetData {
        query: word_at(body, 0),
        flag: word_at(body, 1),
    }
}

fn finish_list_call(body: &[u8]) -> Call<'_>
    requires { 4 ≤ length body.now }
    ensures { call_view result ≡ finish_list_of body.now }
{
    Call::FinishList {
        list: word_at(body, 0),
    }
}

fn execute_list_call(body: &[u8]) -> Call<'_>
    requires { 8 ≤ length body.now }
    ensures { call_view result ≡ execute_list_of body.now }
{
    Call::ExecuteList {
        list: word_at(body, 0),
        flag: word_at(body, 1),
    }
}
